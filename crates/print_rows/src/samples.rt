//! Small terms of each kind, and parentheses at each place.

use cic_env::Env;
use cic_names::{Atom, Expr, Level, LevelName, Name, NoMemory, Part, Sort};
use cic_terms::{Branch, Branches, FixBodies, FixBody, Term, Terms};
use gal_print::print_term;
use kernel_samples::{Made, Maker, one, two};
use std::alloc::Global;
use std::rc::Rc;

/// What terms are made of and printed over.
#[derive(Clone, Copy)]
struct Rows<'r> {
    rt: &'r HostRuntime,
    maker: Maker,
    env: &'r Env,
}

pub(crate) fn text_of(alloc: Global, env: &Env, depth: u32, t: &Term) -> Result<String, NoMemory> {
    let mut text = String::new(alloc);
    print_term(&mut text, env, depth, t)?;
    Ok(text)
}

/// Three things in order.
fn three<T: Drop>(
    alloc: Global,
    first: Result<T, NoMemory>,
    second: Result<T, NoMemory>,
    third: Result<T, NoMemory>,
) -> Result<Vec<T>, NoMemory> {
    let mut all = two(alloc, first, second)?;
    let third = third?;
    all.push(third)?;
    Ok(all)
}

fn level(alloc: Global, owner: &[u8], part: Part) -> Result<Level, NoMemory> {
    match (Name::new(alloc, b"A"), Name::new(alloc, owner)) {
        (Ok(lib), Ok(owner)) => Ok(Level::Named(LevelName { lib, owner, part })),
        _ => Err(NoMemory),
    }
}

fn atom(level: Result<Level, NoMemory>, plus: bool) -> Result<Atom, NoMemory> {
    Ok(Atom {
        level: level?,
        plus,
    })
}

/// A universe of several atoms.
fn universe(alloc: Global) -> Made {
    let declared = atom(level(alloc, b"u", Part::Declared), true);
    let visible = atom(level(alloc, b"c", Part::Visible(0)), false);
    let proof = atom(level(alloc, b"c", Part::Proof(1)), false);
    let mut atoms = three(alloc, declared, visible, proof)?;
    atoms.push(Atom {
        level: Level::Set,
        plus: true,
    })?;
    let universe = Expr::new(alloc, atoms)?;
    Ok(Rc::new(alloc, Term::Sort(Sort::Typ(universe)))?)
}

impl Rows<'_> {
    /// A row: what is shown, and the text of the term in a context of so many entries.
    fn row(self, shown: &str, depth: u32, t: Made) -> anyhow::Result<()> {
        let t = t?;
        let text = text_of(self.rt.alloc(), self.env, depth, &t)?;
        println!(self.rt; "{shown}: {text}")?;
        Ok(())
    }

    fn identity(self) -> Made {
        let m = self.maker;
        m.lambda(m.prop(), m.variable(0))
    }

    fn applied(self, argument: Made) -> Made {
        self.maker.apply(self.maker.constant("c"), argument)
    }

    fn atoms(self) -> anyhow::Result<()> {
        let m = self.maker;
        self.row("Prop", 0, m.prop())?;
        self.row("Set", 0, m.set())?;
        self.row("Type", 0, m.universe("u"))?;
        self.row("several atoms", 0, universe(m.alloc))?;
        self.row("constant", 0, m.constant("c"))?;
        self.row("type", 0, m.ind("N"))?;
        self.row("constructor", 0, m.ctor("S"))?;
        self.row("innermost entry", 2, m.variable(0))?;
        self.row("outermost entry", 2, m.variable(1))?;
        self.row("no entry", 2, m.variable(5))
    }

    fn products(self) -> anyhow::Result<()> {
        let m = self.maker;
        self.row("unused", 0, m.product(m.prop(), m.set()))?;
        self.row("used", 0, m.product(m.prop(), m.variable(0)))?;
        let inner = m.product(m.variable(0), m.variable(1));
        self.row("unused in used", 0, m.product(m.prop(), inner))?;
        let last = m.product(m.variable(1), m.variable(0));
        let second = m.product(m.set(), last);
        self.row("used in unused", 0, m.product(m.prop(), second))?;
        let free = m.product(m.prop(), m.variable(3));
        self.row("no binder", 1, free)
    }

    fn left_of_arrow(self) -> anyhow::Result<()> {
        let m = self.maker;
        let product = m.product(m.prop(), m.set());
        self.row("product left", 0, m.product(product, m.prop()))?;
        self.row(
            "application left",
            0,
            m.product(self.applied(m.prop()), m.set()),
        )?;
        self.row("function left", 0, m.product(self.identity(), m.set()))?;
        let inner = m.product(m.prop(), m.variable(0));
        self.row("binders begin again", 0, m.product(inner, m.set()))
    }

    fn functions(self) -> anyhow::Result<()> {
        let m = self.maker;
        self.row("function", 0, self.identity())?;
        let pair = self.applied(self.applied(m.set()));
        self.row("application in an argument", 0, pair)?;
        let two = m.apply_two(m.constant("c"), m.prop(), m.set());
        self.row("application in a function", 0, two)?;
        let functions = m.apply(self.identity(), self.identity());
        self.row("functions in both", 0, functions)?;
        let product = m.product(m.prop(), m.set());
        self.row("product in an argument", 0, self.applied(product))
    }

    /// A `let` of a set.
    fn local(self, body: Made, ty: Made, rest: Made) -> Made {
        let body = body?;
        let ty = ty?;
        let rest = rest?;
        Ok(Rc::new(self.maker.alloc, Term::Let { body, ty, rest })?)
    }

    fn locals(self) -> anyhow::Result<()> {
        let m = self.maker;
        self.row("let", 0, self.local(m.prop(), m.set(), m.variable(0)))?;
        let inner = self.local(m.prop(), m.set(), m.variable(1));
        self.row("let under a binder", 0, m.lambda(m.prop(), inner))
    }

    /// A match on a type with so many indices.
    fn case(
        self,
        arity: u32,
        ind: &str,
        motive: Made,
        scrutinee: Made,
        branches: Result<Vec<Branch>, NoMemory>,
    ) -> Made {
        let motive = motive?;
        let scrutinee = scrutinee?;
        let branches = branches?;
        self.case_of(arity, ind, motive, scrutinee, branches)
    }

    fn case_of(
        self,
        arity: u32,
        ind: &str,
        motive: Rc<Term>,
        scrutinee: Rc<Term>,
        branches: Vec<Branch>,
    ) -> Made {
        let ind = self.maker.id(ind)?;
        let branches = Rc::new(self.maker.alloc, Branches::from_vec(branches))?;
        Ok(Rc::new(
            self.maker.alloc,
            Term::Case {
                arity,
                ind,
                motive,
                scrutinee,
                branches,
            },
        )?)
    }

    /// A match on the constant `c` that is of `ind`, with a branch without and one with an argument.
    fn choice(self, ind: &str) -> Made {
        let m = self.maker;
        let branches = two(m.alloc, m.branch(0, m.prop()), m.branch(1, m.variable(0)));
        self.case(0, ind, m.variable(0), m.constant("c"), branches)
    }

    fn matches(self) -> anyhow::Result<()> {
        let m = self.maker;
        self.row("match", 0, self.choice("N"))?;
        self.row("match under entries", 3, self.choice("N"))?;
        self.row("match in an argument", 0, self.applied(self.choice("N")))?;
        let nil = one(m.alloc, m.branch(2, m.apply(m.variable(1), m.variable(0))));
        let motive = m.apply_two(m.variable(2), m.variable(1), m.variable(0));
        let vectors = self.case(1, "V", motive, m.variable(0), nil);
        self.row("parameters and an index", 1, vectors)?;
        self.row("type that is not there", 0, self.choice("M"))?;
        let other = self.case(
            1,
            "V",
            m.prop(),
            m.constant("c"),
            two(m.alloc, m.branch(0, m.set()), m.branch(0, m.set())),
        );
        self.row("other number of branches", 0, other)?;
        let none = self.case(0, "M", m.prop(), m.constant("c"), Ok(Vec::new(m.alloc)));
        self.row("no branch", 0, none)?;
        let used = self.case(0, "N", m.prop(), m.variable(0), Ok(Vec::new(m.alloc)));
        self.row("used in a value", 0, m.product(m.prop(), used))
    }

    /// A function by recursion on argument `k`.
    fn function(
        self,
        k: u32,
        domains: Result<Vec<Term>, NoMemory>,
        codomain: Made,
        body: Made,
    ) -> Result<FixBody, NoMemory> {
        let mut one = self.maker.function(domains, codomain, body)?;
        one.k = k;
        Ok(one)
    }

    /// Function `which` of these.
    fn fix(self, which: u32, functions: Result<Vec<FixBody>, NoMemory>) -> Made {
        let functions = functions?;
        let bodies = Rc::new(self.maker.alloc, FixBodies::from_vec(functions))?;
        Ok(Rc::new(self.maker.alloc, Term::Fix { which, bodies })?)
    }

    /// A fix of one function that calls itself.
    fn single(self) -> Made {
        let m = self.maker;
        let body = m.apply(m.variable(1), m.variable(0));
        let domains = one(m.alloc, m.domain(m.ind("N")));
        self.fix(0, one(m.alloc, self.function(0, domains, m.ind("N"), body)))
    }

    /// A fix of three functions under one entry.
    fn mutual(self) -> Made {
        let m = self.maker;
        let two_domains = two(m.alloc, m.domain(m.prop()), m.domain(m.variable(0)));
        let first = self.function(1, two_domains, m.variable(0), self.identity());
        let domains = one(m.alloc, m.domain(m.variable(0)));
        let called = m.apply(m.variable(3), m.variable(0));
        let second = self.function(0, domains, m.variable(1), called);
        let domains = one(m.alloc, m.domain(m.variable(2)));
        let third = self.function(0, domains, m.prop(), self.identity());
        self.fix(1, three(m.alloc, first, second, third))
    }

    fn fixes(self) -> anyhow::Result<()> {
        let m = self.maker;
        self.row("fix", 0, self.single())?;
        self.row("fix in a function", 0, m.apply(self.single(), m.prop()))?;
        self.row("three functions", 1, self.mutual())?;
        let domains = one(m.alloc, m.domain(m.prop()));
        let only = self.function(0, domains, m.prop(), m.variable(2));
        let fix = self.fix(0, one(m.alloc, only));
        self.row("used in a body", 0, m.product(m.prop(), fix))?;
        let domains = one(m.alloc, m.domain(m.product(m.prop(), m.variable(0))));
        let first = self.function(0, domains, m.prop(), m.variable(0));
        let domains = one(m.alloc, m.domain(self.single()));
        let second = self.function(0, domains, m.prop(), m.variable(5));
        self.row(
            "binders in domains",
            0,
            self.fix(0, two(m.alloc, first, second)),
        )
    }
}

pub(crate) fn print_rows(rt: &HostRuntime, maker: Maker, env: &Env) -> anyhow::Result<()> {
    let rows = Rows { rt, maker, env };
    rows.atoms()?;
    rows.products()?;
    rows.left_of_arrow()?;
    rows.functions()?;
    rows.locals()?;
    rows.matches()?;
    rows.fixes()
}

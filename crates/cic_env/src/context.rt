//! Local contexts.
ghost use Rattle.std.specs.Prelude.{◌≡◌, ◌∷◌, [], length, IfSome, IfNone, OnOk, OnErr};
ghost use Rattle.std.specs.Option.{option_map};
ghost use Rattle.cic_terms.specs.Denotes.{tree};
ghost use Rattle.cic_rules.specs.Environment.{element, type_at, body_at};
ghost use Rattle.cic_env.specs.Contexts.{local, context};

use cic_names::NoMemory;
use cic_terms::Term;
use std::alloc::Global;
use std::rc::Rc;

/// An entry of a context: a type and a body, each where it is known. Coq Reference Manual, "Typing rules".
#[derive(Drop)]
pub struct Local {
    pub ty: Option<Rc<Term>>,
    pub body: Option<Rc<Term>>,
}

/// A local context. Variable 0 is the innermost entry.
#[derive(Drop)]
pub struct Context {
    locals: Vec<Local>,
}

impl Context {
    /// No entries.
    pub fn new(alloc: Global) -> Context
        ensures { context result ≡ [] }
    {
        Context {
            locals: Vec::new(alloc),
        }
    }

    /// How many entries there are.
    pub fn len(&self) -> usize
        ensures { result ≡ length (context self.now) }
    {
        self.locals.len()
    }

    /// Puts an entry inside the others.
    pub fn push(&mut self, entry: Local) -> Result<(), NoMemory>
        ensures added { OnOk result (context self.new ≡ local entry ∷ context self.old) }
        ensures same { OnErr result (context self.new ≡ context self.old) }
    {
        self.locals.push(entry)?;
        Ok(())
    }

    /// Takes the innermost entry away.
    pub fn pop(&mut self) -> Option<Local>
        ensures taken { IfSome result (λ entry. context self.old ≡ local entry ∷ context self.new) }
        ensures none { IfNone result (context self.old ≡ []) }
        ensures same { IfNone result (context self.new ≡ context self.old) }
    {
        self.locals.pop()
    }

    /// The entry of a variable.
    fn local(&self, variable: u32) -> Option<&Local>
        ensures { option_map (λ entry. local entry.now) result ≡ element (context self.now) variable }
    {
        let count = self.locals.len();
        let variable = variable as usize;
        if variable < count {
            Some(&self.locals[count - 1 - variable])
        } else {
            None
        }
    }

    /// The type of a variable, as it stands in the variable's entry.
    pub fn ty(&self, variable: u32) -> Option<&Rc<Term>>
        ensures { option_map (λ ty. tree ty.now.value) result ≡ type_at (context self.now) variable }
    {
        self.local(variable)?.ty.as_ref()
    }

    /// The body of a variable, as it stands in the variable's entry.
    pub fn body(&self, variable: u32) -> Option<&Rc<Term>>
        ensures { option_map (λ body. tree body.now.value) result ≡ body_at (context self.now) variable }
    {
        self.local(variable)?.body.as_ref()
    }
}

//! Whole declarations generalised over hypotheses.
ghost use Rattle.std.specs.Prelude.{◌≡◌, ◌+◌, ◌∷◌, [], true, false, length, map, IfOk, OnErr, Err};
ghost use Rattle.std.specs.Option.{option_map};
ghost use Rattle.cic_env.specs.Declarations.{declaration, block, constructor_declaration, type_declaration, IsOfConstant};
ghost use Rattle.cic_rules.specs.Environment.{axiom_of, transparent, opaque};
ghost use Rattle.cic_terms.specs.Denotes.{tree};
ghost use Rattle.cic_terms.specs.calls.Answer.{Makes};
ghost use Rattle.section_terms.specs.Hypotheses.{without_lets};
ghost use Rattle.section_terms.specs.Discharge.{generalised, generalised_type, generalised_body, generalised_part, generalised_constructor, generalised_type_declaration, generalised_block};
ghost use Rattle.section_uses.specs.Kept.{hypothesis, list_of};
ghost use Rattle.section_discharge.specs.Makes.{MakesDeclaration};
ghost use Rattle.section_discharge.specs.calls.Parts.{MakesOptional, MakesConstructor, MakesConstructors, MakesType, MakesTypes, MakesCount, MakesBlock};

use crate::binders::{Binders, Binding};
use cic_env::{Block, CtorDecl, Decl, IndType};
use cic_names::GlobalId;
use cic_terms::{Term, TermFault};
use section_uses::{Hypothesis, Lists};
use std::alloc::Global;

/// The same id, which shares its names.
fn copied(id: &GlobalId) -> Result<GlobalId, TermFault>
    ensures ok { IfOk result (λ r. r ≡ id.now) }
    ensures err { OnErr result (result ≡ Err TermFault.NoMemory) }
{
    Ok(id.clone()?)
}

impl Binders<'_> {
    ghost use Rattle.section_discharge.specs.calls.Tables.{arguments_of};
    ghost use Rattle.section_discharge.specs.calls.Binders.{IsReady, hypotheses_of};

    fn of_type(&self, alloc: Global, t: &Term) -> Result<Term, TermFault>
        requires ready { IsReady self.now }
        requires keeps { self.now.table.keeps ≡ true }
        ensures { Makes 4000 (generalised_type (arguments_of self.now.table) (hypotheses_of self.now.table) (tree t.now)) result }
    {
        self.over(alloc, Binding::Product, t)
    }

    fn of_body(&self, alloc: Global, t: &Term) -> Result<Term, TermFault>
        requires ready { IsReady self.now }
        requires keeps { self.now.table.keeps ≡ true }
        ensures { Makes 4000 (generalised_body (arguments_of self.now.table) (hypotheses_of self.now.table) (tree t.now)) result }
    {
        self.over(alloc, Binding::Abstraction, t)
    }

    fn of_part(&self, alloc: Global, t: &Term) -> Result<Term, TermFault>
        requires ready { IsReady self.now }
        requires keeps { self.now.table.keeps ≡ false }
        ensures { Makes 4000 (generalised_part (arguments_of self.now.table) (hypotheses_of self.now.table) (tree t.now)) result }
    {
        self.over(alloc, Binding::Product, t)
    }

    fn of_optional_body(
        &self,
        alloc: Global,
        body: &Option<Term>,
    ) -> Result<Option<Term>, TermFault>
        requires ready { IsReady self.now }
        requires keeps { self.now.table.keeps ≡ true }
        ensures { MakesOptional (option_map (generalised_body (arguments_of self.now.table) (hypotheses_of self.now.table)) (option_map tree body.now)) result }
    {
        match body {
            None => Ok(None),
            Some(body) => Ok(Some(self.of_body(alloc, body)?)),
        }
    }

    fn axiom(&self, alloc: Global, id: &GlobalId, ty: &Term) -> Result<Decl, TermFault>
        requires ready { IsReady self.now }
        requires keeps { self.now.table.keeps ≡ true }
        ensures { MakesDeclaration (generalised (arguments_of self.now.table) (hypotheses_of self.now.table) (axiom_of id.now (tree ty.now))) result }
    {
        let id = copied(id)?;
        let ty = self.of_type(alloc, ty)?;
        Ok(Decl::Axiom { id, ty })
    }

    fn transparent(
        &self,
        alloc: Global,
        id: &GlobalId,
        ty: &Term,
        body: &Term,
    ) -> Result<Decl, TermFault>
        requires ready { IsReady self.now }
        requires keeps { self.now.table.keeps ≡ true }
        ensures { MakesDeclaration (generalised (arguments_of self.now.table) (hypotheses_of self.now.table) (transparent id.now (tree ty.now) (tree body.now))) result }
    {
        let id = copied(id)?;
        let ty = self.of_type(alloc, ty)?;
        let body = self.of_body(alloc, body)?;
        Ok(Decl::Transparent { id, ty, body })
    }

    fn opaque(
        &self,
        alloc: Global,
        id: &GlobalId,
        ty: &Term,
        body: &Option<Term>,
    ) -> Result<Decl, TermFault>
        requires ready { IsReady self.now }
        requires keeps { self.now.table.keeps ≡ true }
        ensures { MakesDeclaration (generalised (arguments_of self.now.table) (hypotheses_of self.now.table) (opaque id.now (tree ty.now) (option_map tree body.now))) result }
    {
        let id = copied(id)?;
        let ty = self.of_type(alloc, ty)?;
        let body = self.of_optional_body(alloc, body)?;
        Ok(Decl::Opaque { id, ty, body })
    }

    fn constant(&self, alloc: Global, decl: &Decl) -> Result<Decl, TermFault>
        requires ready { IsReady self.now }
        requires keeps { self.now.table.keeps ≡ true }
        requires constant { IsOfConstant decl.now }
        ensures { MakesDeclaration (generalised (arguments_of self.now.table) (hypotheses_of self.now.table) (declaration decl.now)) result }
    {
        match decl {
            Decl::Axiom { id, ty } => self.axiom(alloc, id, ty),
            Decl::Transparent { id, ty, body } => self.transparent(alloc, id, ty, body),
            Decl::Opaque { id, ty, body } => self.opaque(alloc, id, ty, body),
            Decl::Inductive(_) => unreachable!(),
        }
    }

    fn constructor(&self, alloc: Global, ctor: &CtorDecl) -> Result<CtorDecl, TermFault>
        requires ready { IsReady self.now }
        requires keeps { self.now.table.keeps ≡ false }
        ensures { MakesConstructor (generalised_constructor (arguments_of self.now.table) (hypotheses_of self.now.table) (constructor_declaration ctor.now)) result }
    {
        let id = copied(&ctor.id)?;
        let ty = self.of_part(alloc, &ctor.ty)?;
        Ok(CtorDecl { id, ty })
    }

    fn constructors(&self, alloc: Global, ctors: &[CtorDecl]) -> Result<Vec<CtorDecl>, TermFault>
        requires ready { IsReady self.now }
        requires keeps { self.now.table.keeps ≡ false }
        ensures { MakesConstructors (map (generalised_constructor (arguments_of self.now.table) (hypotheses_of self.now.table)) (map constructor_declaration ctors.now)) result }
    {
        let mut made = Vec::new(alloc);
        for ctor in ctors {
            let new = self.constructor(alloc, ctor)?;
            made.push(new)?;
        }
        Ok(made)
    }

    fn type_declaration(&self, alloc: Global, ty: &IndType) -> Result<IndType, TermFault>
        requires ready { IsReady self.now }
        requires keeps { self.now.table.keeps ≡ false }
        ensures { MakesType (generalised_type_declaration (arguments_of self.now.table) (hypotheses_of self.now.table) (type_declaration ty.now)) result }
    {
        let id = copied(&ty.id)?;
        let arity = self.of_part(alloc, &ty.arity)?;
        let ctors = self.constructors(alloc, ty.ctors.as_slice())?;
        Ok(IndType { id, arity, ctors })
    }

    fn types(&self, alloc: Global, types: &[IndType]) -> Result<Vec<IndType>, TermFault>
        requires ready { IsReady self.now }
        requires keeps { self.now.table.keeps ≡ false }
        ensures { MakesTypes (map (generalised_type_declaration (arguments_of self.now.table) (hypotheses_of self.now.table)) (map type_declaration types.now)) result }
    {
        let mut made = Vec::new(alloc);
        for ty in types {
            let new = self.type_declaration(alloc, ty)?;
            made.push(new)?;
        }
        Ok(made)
    }
}

/// One more parameter, where the hypothesis is a variable.
fn count_one(count: u32, h: &Hypothesis) -> Result<u32, TermFault>
    ensures { MakesCount (count + length (without_lets (hypothesis h.now ∷ []))) result }
{
    match &h.body {
        Some(_) => Ok(count),
        None if count == u32::MAX => Err(TermFault::Deep),
        None => Ok(count + 1),
    }
}

/// The number of parameters, which grows by the number of variables.
fn grown(params: u32, hypotheses: &[Hypothesis]) -> Result<u32, TermFault>
    ensures { MakesCount (params + length (without_lets (map hypothesis hypotheses.now))) result }
{
    let mut count = params;
    for h in hypotheses {
        count = count_one(count, h)?;
    }
    Ok(count)
}

/// The types of a block. Where there is none, nothing passes the limits.
fn generalise_types(
    alloc: Global,
    types: &[IndType],
    hypotheses: &[Hypothesis],
    arguments: &Lists,
) -> Result<Vec<IndType>, TermFault>
    ensures { MakesTypes (map (generalised_type_declaration (list_of arguments.now) (map hypothesis hypotheses.now)) (map type_declaration types.now)) result }
{
    if types.is_empty() {
        return Ok(Vec::new(alloc));
    }
    let binders = Binders::new(alloc, hypotheses, arguments, false)?;
    binders.types(alloc, types)
}

fn generalise_block(
    alloc: Global,
    old: &Block,
    hypotheses: &[Hypothesis],
    arguments: &Lists,
) -> Result<Block, TermFault>
    ensures { MakesBlock (generalised_block (list_of arguments.now) (map hypothesis hypotheses.now) (block old.now)) result }
{
    let params = grown(old.params, hypotheses)?;
    let types = generalise_types(alloc, old.types.as_slice(), hypotheses, arguments)?;
    Ok(Block { params, types })
}

fn generalise_constant(
    alloc: Global,
    decl: &Decl,
    hypotheses: &[Hypothesis],
    arguments: &Lists,
) -> Result<Decl, TermFault>
    requires { IsOfConstant decl.now }
    ensures { MakesDeclaration (generalised (list_of arguments.now) (map hypothesis hypotheses.now) (declaration decl.now)) result }
{
    let binders = Binders::new(alloc, hypotheses, arguments, true)?;
    binders.constant(alloc, decl)
}

/// The declaration generalised over the hypotheses, with each constant of the section in it applied to its `arguments`:
/// in a type a variable is a product, in a body an abstraction, and a let a `let`; in a block a variable is one more
/// parameter, and a let gives way to its body. `Deep` exactly where a term of the result passes the limits.
pub fn generalise(
    alloc: Global,
    decl: &Decl,
    hypotheses: &[Hypothesis],
    arguments: &Lists,
) -> Result<Decl, TermFault>
    ensures { MakesDeclaration (generalised (list_of arguments.now) (map hypothesis hypotheses.now) (declaration decl.now)) result }
{
    match decl {
        Decl::Inductive(block) => {
            let block = generalise_block(alloc, block, hypotheses, arguments)?;
            Ok(Decl::Inductive(block))
        }
        _ => generalise_constant(alloc, decl, hypotheses, arguments),
    }
}

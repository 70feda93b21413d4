//! Terms as they are written, read into terms.
ghost use Rattle.std.specs.Prelude.{◌≡◌, ◌+◌, ◌<◌, ℕ, Ok, Err, IfOk, OnOk, Option, is_none, map};
ghost use Rattle.std.specs.Option.{option_copied, option_map};
ghost use Rattle.memory.specs.Telling.{OrNoMemory};
ghost use Rattle.cic_terms.specs.Tree.{Tree};
ghost use Rattle.cic_terms.specs.Denotes.{tree as term_tree};
ghost use Rattle.gal_grammar.specs.Terms as S;
ghost use Rattle.gal_raw.specs.Denotes.{tree, application, fix_of, let_in, match_of, groups, functions, function, branches, within};
ghost use Rattle.gal_scoping.specs.Levels.{anonymous, at_level, types_in, types_in_groups, types_in_functions, types_in_branches};
ghost use Rattle.gal_scoping.specs.Readings.{with_part};
ghost use Rattle.gal_raw.specs.declared.terms.MatchOf.{out-MatchOf};
ghost use Rattle.gal_scoping.specs.Matches.{matched_type};
ghost use Rattle.gal_scoping.specs.Terms.{term};
ghost use Rattle.elab_parts.specs.Faults.{fault};
ghost use Rattle.elab_parts.specs.calls.Parts.{cut};
ghost use Rattle.elab_matches.specs.Matches.{type_of};
ghost use Rattle.elab_parts.specs.Binders.{around_of};
ghost use Rattle.elab_parts.specs.Places.{place_of, owner_of};
ghost use Rattle.elab_parts.specs.calls.Bindings.{known_binding, known_inside};
ghost use Rattle.gal_scoping.specs.Fixpoints.{function_names};
ghost use Rattle.elab_terms.specs.calls.Sizes.{size};
ghost use Rattle.elab_terms.specs.calls.Walks.{ReadsTerm, ReadsGroups, ReadsFunctions, ReadsFunction, ReadsBranches, over_groups, IsOver};

use crate::bare::bare;
use cic_names::Sort;
use elab_matches::{
    Done, MatchedType, add_branch, case_of, matched_type, pattern_read, value_name,
};
use elab_parts::{
    Around, Binding, Pair, Part, Place, ReadFunction, ScopingFault, add_group, anonymous_level,
    binder_names, chosen_function, enter_all, fix_term, level_term, make_let, make_pair, name_term,
    over, sort, structural_place,
};
use gal_raw::{
    Application, ArrowOf, Branches, FixOf, Function, Functions, Groups, LetIn, MatchOf, Raw,
};
use memory::NoMemory;
use std::alloc::Global;

/// `Type` at the next anonymous level. Levels are fewer than 2^32.
fn next_level(alloc: Global, place: &Place<'_>, next: &mut u32) -> Result<Part, NoMemory>
    ensures level { IfOk result (λ p. term_tree p.term.value ≡ at_level (anonymous (place_of place.now).scope.library (owner_of place.now) next.old)) }
    ensures next { OnOk result (next.new ≡ next.old + 1) }
{
    let number = *next;
    let Some(after) = number.checked_add(1) else {
        return Err(NoMemory);
    };
    *next = after;
    anonymous_level(alloc, place, number)
}

/// The names of functions.
fn function_names<'a>(alloc: Global, all: &Functions<'a>) -> Result<Vec<Option<&'a [u8]>>, NoMemory>
    ensures { IfOk result (λ names. map option_copied names.items ≡ function_names (functions all.now)) }
{
    let mut names = Vec::new(alloc);
    let written = all.as_slice();
    for one in written {
        names.push(Some(one.name.text))?;
    }
    Ok(names)
}

/// Reads a term at a place, under the binders around it, which stay. `next` is the number of the next anonymous level.
/// None: the term is past the limits of a term. Coq Reference Manual, "Terms".
#[cycle(read)]
pub fn term<'a>(
    alloc: Global,
    place: &Place<'_>,
    around: &mut Around<'a>,
    next: &mut u32,
    raw: &Raw<'a>,
) -> Result<Option<Part>, ScopingFault<'a>>
    ensures read { ReadsTerm place.now (around_of around.old) next.old (tree raw.now) result }
    ensures around { OnOk result (around_of around.new ≡ around_of around.old) }
    ensures next { OnOk result (next.new ≡ next.old + types_in (tree raw.now)) }
{
    match bare(raw) {
        Raw::Prop => Ok(Some(sort(alloc, Sort::Prop)?)),
        Raw::Set => Ok(Some(sort(alloc, Sort::Set)?)),
        Raw::Type => Ok(Some(next_level(alloc, place, next)?)),
        Raw::TypeAt(x) => Ok(Some(level_term(alloc, place, x)?)),
        Raw::Reference(x) => name_term(alloc, place, around, x),
        Raw::Application(x) => applied(alloc, place, around, next, x),
        Raw::Arrow(x) => arrow(alloc, place, around, next, x),
        Raw::Product(among, body) => bound(alloc, place, around, next, Pair::Product, among, body),
        Raw::Abstraction(among, body) => {
            bound(alloc, place, around, next, Pair::Abstraction, among, body)
        }
        Raw::Let(x) => definition(alloc, place, around, next, x),
        Raw::Fix(x) => fixpoint(alloc, place, around, next, x),
        Raw::Match(x) => case(alloc, place, around, next, x),
    }
}

/// Reads a term applied to arguments, of which there are some.
#[cycle(read)]
fn applied<'a>(
    alloc: Global,
    place: &Place<'_>,
    around: &mut Around<'a>,
    next: &mut u32,
    x: &Application<'a>,
) -> Result<Option<Part>, ScopingFault<'a>>
    requires some { size (tree x.now.head.value) < size (application x.now) }
    ensures read { ReadsTerm place.now (around_of around.old) next.old (application x.now) result }
    ensures around { OnOk result (around_of around.new ≡ around_of around.old) }
    ensures next { OnOk result (next.new ≡ next.old + types_in (application x.now)) }
{
    let arguments = x.arguments();
    let mut made = term(alloc, place, around, next, &x.head)?;
    for argument in arguments {
        let read = term(alloc, place, around, next, argument)?;
        made = make_pair(alloc, Pair::Application, &made, &read)?;
    }
    Ok(made)
}

/// Reads an arrow.
#[cycle(read)]
fn arrow<'a>(
    alloc: Global,
    place: &Place<'_>,
    around: &mut Around<'a>,
    next: &mut u32,
    x: &ArrowOf<'a>,
) -> Result<Option<Part>, ScopingFault<'a>>
    ensures read { ReadsTerm place.now (around_of around.old) next.old (S.arrow (tree x.now.from) (tree x.now.to)) result }
    ensures around { OnOk result (around_of around.new ≡ around_of around.old) }
    ensures next { OnOk result (next.new ≡ next.old + types_in (S.arrow (tree x.now.from) (tree x.now.to))) }
{
    let outside = around.len();
    let from = term(alloc, place, around, next, &x.from)?;
    around.enter(None)?;
    let to = term(alloc, place, around, next, &x.to)?;
    around.leave(outside);
    Ok(make_pair(alloc, Pair::Product, &from, &to)?)
}

/// Reads the binders of groups, and enters them. A binder without a type has one that is past the limits.
#[cycle(read)]
pub fn telescope<'a>(
    alloc: Global,
    place: &Place<'_>,
    around: &mut Around<'a>,
    next: &mut u32,
    among: &Groups<'a>,
) -> Result<Vec<Binding<'a>>, ScopingFault<'a>>
    ensures read { ReadsGroups place.now (around_of around.old) next.old (groups among.now) result }
    ensures around { IfOk result (λ bs. around_of around.new ≡ known_inside (map known_binding bs.items) (around_of around.old)) }
    ensures next { OnOk result (next.new ≡ next.old + types_in_groups (groups among.now)) }
{
    let mut binders = Vec::new(alloc);
    let all = among.as_slice();
    for group in all {
        let ty = term(alloc, place, around, next, &group.ty)?;
        add_group(alloc, &mut binders, around, &group.binders, &ty)?;
    }
    Ok(binders)
}

/// Reads products, or abstractions, over groups of binders.
#[cycle(read)]
fn bound<'a>(
    alloc: Global,
    place: &Place<'_>,
    around: &mut Around<'a>,
    next: &mut u32,
    kind: Pair,
    among: &Groups<'a>,
    body: &Raw<'a>,
) -> Result<Option<Part>, ScopingFault<'a>>
    requires kind { IsOver kind }
    ensures read { ReadsTerm place.now (around_of around.old) next.old (over_groups kind (groups among.now) (tree body.now)) result }
    ensures around { OnOk result (around_of around.new ≡ around_of around.old) }
    ensures next { OnOk result (next.new ≡ next.old + (types_in_groups (groups among.now) + types_in (tree body.now))) }
{
    let outside = around.len();
    let binders = telescope(alloc, place, around, next, among)?;
    let inner = term(alloc, place, around, next, body)?;
    around.leave(outside);
    Ok(over(alloc, kind, &binders, inner)?)
}

/// Reads a definition within a term.
#[cycle(read)]
fn definition<'a>(
    alloc: Global,
    place: &Place<'_>,
    around: &mut Around<'a>,
    next: &mut u32,
    x: &LetIn<'a>,
) -> Result<Option<Part>, ScopingFault<'a>>
    ensures read { ReadsTerm place.now (around_of around.old) next.old (let_in x.now) result }
    ensures around { OnOk result (around_of around.new ≡ around_of around.old) }
    ensures next { OnOk result (next.new ≡ next.old + types_in (let_in x.now)) }
{
    let outside = around.len();
    let binders = telescope(alloc, place, around, next, &x.groups)?;
    let ty = term(alloc, place, around, next, &x.ty)?;
    let body = term(alloc, place, around, next, &x.body)?;
    around.leave(outside);
    around.enter(Some(x.name.text))?;
    let rest = term(alloc, place, around, next, &x.rest)?;
    around.leave(outside);
    let ty = over(alloc, Pair::Product, &binders, ty)?;
    let body = over(alloc, Pair::Abstraction, &binders, body)?;
    Ok(make_let(alloc, &body, &ty, &rest)?)
}

/// Reads a fixpoint.
#[cycle(read)]
fn fixpoint<'a>(
    alloc: Global,
    place: &Place<'_>,
    around: &mut Around<'a>,
    next: &mut u32,
    x: &FixOf<'a>,
) -> Result<Option<Part>, ScopingFault<'a>>
    ensures read { ReadsTerm place.now (around_of around.old) next.old (fix_of x.now) result }
    ensures around { OnOk result (around_of around.new ≡ around_of around.old) }
    ensures next { OnOk result (next.new ≡ next.old + types_in (fix_of x.now)) }
{
    let names = function_names(alloc, &x.functions)?;
    let read = several(alloc, place, &names, around, next, &x.functions)?;
    let which = chosen_function(&names, &x.chosen)?;
    Ok(fix_term(alloc, place.env, &read, which)?)
}

/// Reads functions of these names.
#[cycle(read)]
pub fn several<'a>(
    alloc: Global,
    place: &Place<'_>,
    names: &[Option<&'a [u8]>],
    around: &mut Around<'a>,
    next: &mut u32,
    all: &Functions<'a>,
) -> Result<Vec<ReadFunction<'a>>, ScopingFault<'a>>
    ensures read { ReadsFunctions place.now (map option_copied names.now) (around_of around.old) next.old (functions all.now) result }
    ensures around { OnOk result (around_of around.new ≡ around_of around.old) }
    ensures next { OnOk result (next.new ≡ next.old + types_in_functions (functions all.now)) }
{
    let mut done = Vec::new(alloc);
    let written = all.as_slice();
    for one in written {
        let read = single(alloc, place, names, around, next, one)?;
        done.push(read)?;
    }
    Ok(done)
}

/// Reads one of the functions of these names.
#[cycle(read)]
fn single<'a>(
    alloc: Global,
    place: &Place<'_>,
    names: &[Option<&'a [u8]>],
    around: &mut Around<'a>,
    next: &mut u32,
    one: &Function<'a>,
) -> Result<ReadFunction<'a>, ScopingFault<'a>>
    ensures read { ReadsFunction place.now (map option_copied names.now) (around_of around.old) next.old (function S.no_functions one.now) result }
    ensures around { OnOk result (around_of around.new ≡ around_of around.old) }
    ensures next { OnOk result (next.new ≡ next.old + types_in_functions (function S.no_functions one.now)) }
{
    let outside = around.len();
    let binders = telescope(alloc, place, around, next, &one.groups)?;
    let own = binder_names(alloc, &binders)?;
    let structural = structural_place(&own, &one.structural)?;
    let codomain = term(alloc, place, around, next, &one.ty)?;
    around.leave(outside);
    enter_all(around, names)?;
    enter_all(around, &own)?;
    let body = term(alloc, place, around, next, &one.body)?;
    around.leave(outside);
    Ok(ReadFunction {
        structural,
        binders,
        codomain,
        body,
    })
}

/// Reads a match.
#[cycle(read)]
fn case<'a>(
    alloc: Global,
    place: &Place<'_>,
    around: &mut Around<'a>,
    next: &mut u32,
    x: &MatchOf<'a>,
) -> Result<Option<Part>, ScopingFault<'a>>
    ensures read { ReadsTerm place.now (around_of around.old) next.old (match_of x.now) result }
    ensures around { OnOk result (around_of around.new ≡ around_of around.old) }
    ensures next { OnOk result (next.new ≡ next.old + types_in (match_of x.now)) }
{
    let outside = around.len();
    let value = term(alloc, place, around, next, &x.value)?;
    let ty = match matched_type(alloc, place, around, &x.within, &x.branches) {
        Ok(ty) => ty,
        Err(reason) => return Err(first_fault(alloc, place, around, next, x, reason)),
    };
    ty.enter(around, value_name(&x.value, &x.name))?;
    let motive = term(alloc, place, around, next, &x.motive)?;
    around.leave(outside);
    let done = arms(alloc, place, around, next, &ty, &x.branches)?;
    case_of(alloc, &ty, &value, &motive, &done)
}

/// Whether there was no memory.
fn is_no_memory(reason: &ScopingFault<'_>) -> bool
    ensures { result ≡ is_none (fault reason.now) }
{
    matches!(reason, ScopingFault::NoMemory)
}

/// The first fault of a match whose type has this one: a fault behind `return` stands before that of a pattern.
#[cycle(read)]
fn first_fault<'a>(
    alloc: Global,
    place: &Place<'_>,
    around: &mut Around<'a>,
    next: &mut u32,
    x: &MatchOf<'a>,
    reason: ScopingFault<'a>,
) -> ScopingFault<'a>
    requires reason { OrNoMemory (fault reason) (λ f. matched_type (place_of place.now) (around_of around.old) (option_map within (out-MatchOf x.now).within) (branches (out-MatchOf x.now).branches) ≡ Err f) }
    ensures { (first : ℕ) (value : Option Tree) → with_part cut (term (place_of place.now) (owner_of place.now) (around_of around.old) first (tree (out-MatchOf x.now).value)) ≡ Ok value → next.old ≡ first + types_in (tree (out-MatchOf x.now).value) → OrNoMemory (fault result) (λ f. with_part cut (term (place_of place.now) (owner_of place.now) (around_of around.old) first (match_of x.now)) ≡ Err f) }
{
    if x.within.is_some() || is_no_memory(&reason) {
        return reason;
    }
    if around.enter(value_name(&x.value, &x.name)).is_err() {
        return ScopingFault::NoMemory;
    }
    match term(alloc, place, around, next, &x.motive) {
        Ok(_) => reason,
        Err(earlier) => earlier,
    }
}

/// Reads the branches of a match on this type.
#[cycle(read)]
fn arms<'a>(
    alloc: Global,
    place: &Place<'_>,
    around: &mut Around<'a>,
    next: &mut u32,
    ty: &MatchedType<'_, 'a>,
    all: &Branches<'a>,
) -> Result<Done, ScopingFault<'a>>
    ensures read { ReadsBranches place.now (around_of around.old) next.old (type_of ty.now) (branches all.now) result }
    ensures around { OnOk result (around_of around.new ≡ around_of around.old) }
    ensures next { OnOk result (next.new ≡ next.old + types_in_branches (branches all.now)) }
{
    let mut done = Done::new(alloc);
    let written = all.as_slice();
    for branch in written {
        let outside = around.len();
        let pattern = pattern_read(place, around, ty, &done, &branch.constructor, &branch.names)?;
        pattern.enter(around)?;
        let body = term(alloc, place, around, next, &branch.body)?;
        around.leave(outside);
        add_branch(&mut done, &pattern, body)?;
    }
    Ok(done)
}

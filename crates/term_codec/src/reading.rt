//! What callers read: whole slices, and values at a place of one.
ghost use Rattle.std.specs.Prelude.{◌≡◌, ◌≤◌, ◌<◌, ◌^◌, [], IfOk, IfErr, length, drop};
ghost use Rattle.seg_format.specs.declared.layout.Segment.TheVariants.{Library, Proofs};
ghost use Rattle.term_format.specs.Reading.{value, whole, read_name, read_level};
ghost use Rattle.term_format.specs.Storable.{AreStorable, IsStorable};
ghost use Rattle.term_format.specs.ConstraintReading.{read_constraints};
ghost use Rattle.term_codec.specs.calls.Answers.{Stops, Refuses};

use crate::constraints::read_constraints;
use crate::faults::{DecodeFault, Stop};
use crate::fields::{read_level, read_name};
use crate::terms::read_owned;
use cic_names::{Constraints, Level, Name};
use cic_terms::Term;
use seg_format::{Defect, Segment};
use std::alloc::Global;

/// The name that is spelled from a place on, and the next place.
#[tactic(auto, using(crate::proofs::Refusing::small_of, crate::proofs::Refusing::refuses_of))]
pub fn name_at(alloc: Global, b: &[u8], place: u32) -> Result<(Name, u32), DecodeFault>
    requires small { length b.now < 2 ^ 32 }
    requires within { place ≤ length b.now }
    ensures value { IfOk result (λ r. read_name (drop place b.now) ≡ value r.0 (drop r.1 b.now)) }
    ensures next { IfOk result (λ r. r.1 ≤ length b.now) }
    ensures fault { IfErr result (λ f. Refuses Library (length b.now) (read_name (drop place b.now)) f) }
{
    let mut next = place as usize;
    match read_name(alloc, b, &mut next) {
        Ok(name) => Ok((name, next as u32)),
        Err(stop) => Err(stop.in_segment(Segment::Library)),
    }
}

/// The level that is spelled from a place on, and the next place.
#[tactic(auto, using(crate::proofs::Refusing::small_of, crate::proofs::Refusing::refuses_of))]
pub fn level_at(alloc: Global, b: &[u8], place: u32) -> Result<(Level, u32), DecodeFault>
    requires small { length b.now < 2 ^ 32 }
    requires within { place ≤ length b.now }
    ensures value { IfOk result (λ r. read_level (drop place b.now) ≡ value r.0 (drop r.1 b.now)) }
    ensures next { IfOk result (λ r. r.1 ≤ length b.now) }
    ensures fault { IfErr result (λ f. Refuses Library (length b.now) (read_level (drop place b.now)) f) }
{
    let mut next = place as usize;
    match read_level(alloc, b, &mut next) {
        Ok(level) => Ok((level, next as u32)),
        Err(stop) => Err(stop.in_segment(Segment::Library)),
    }
}

/// The constraints that all of the bytes spell.
#[tactic(auto, using(crate::proofs::Refusing::whole_stops, crate::proofs::Refusing::trails, crate::proofs::Refusing::whole_ends, crate::proofs::Refusing::nothing_left))]
fn whole_constraints(alloc: Global, b: &[u8]) -> Result<Constraints, Stop>
    ensures value { IfOk result (λ cs. whole (read_constraints b.now) ≡ value cs []) }
    ensures storable { IfOk result (λ cs. AreStorable cs) }
    ensures stops { IfErr result (λ stop. Stops (length b.now) (whole (read_constraints b.now)) stop) }
{
    let mut place = 0;
    let all = read_constraints(alloc, b, &mut place)?;
    if place < b.len() {
        return Err(Stop::Wrong(Defect::Trailing, place));
    }
    Ok(all)
}

/// The list of constraints that all of the bytes spell.
#[tactic(auto, using(crate::proofs::Refusing::small_of, crate::proofs::Refusing::refuses_of))]
pub fn decode_constraints(alloc: Global, b: &[u8]) -> Result<Constraints, DecodeFault>
    requires { length b.now < 2 ^ 32 }
    ensures value { IfOk result (λ cs. whole (read_constraints b.now) ≡ value cs []) }
    ensures storable { IfOk result (λ cs. AreStorable cs) }
    ensures fault { IfErr result (λ f. Refuses Proofs (length b.now) (whole (read_constraints b.now)) f) }
{
    match whole_constraints(alloc, b) {
        Ok(all) => Ok(all),
        Err(stop) => Err(stop.in_segment(Segment::Proofs)),
    }
}

ghost use Rattle.cic_terms.specs.Denotes.{tree};
ghost use Rattle.seg_format.specs.declared.layout.Segment.TheVariants.{Opaques};
ghost use Rattle.term_format.specs.TermReading.{read_whole_term};

/// The term that is spelled from a place on, and the next place.
#[tactic(auto, using(crate::proofs::Refusing::small_of, crate::proofs::Refusing::refuses_of))]
pub fn term_at(alloc: Global, b: &[u8], place: u32) -> Result<(Term, u32), DecodeFault>
    requires small { length b.now < 2 ^ 32 }
    requires within { place ≤ length b.now }
    ensures value { IfOk result (λ r. read_whole_term (drop place b.now) ≡ value (tree r.0) (drop r.1 b.now)) }
    ensures next { IfOk result (λ r. r.1 ≤ length b.now) }
    ensures fault { IfErr result (λ f. Refuses Library (length b.now) (read_whole_term (drop place b.now)) f) }
{
    let mut next = place as usize;
    match read_owned(alloc, b, &mut next) {
        Ok(term) => Ok((term, next as u32)),
        Err(stop) => Err(stop.in_segment(Segment::Library)),
    }
}

/// The term that all of the bytes spell.
#[tactic(auto, using(crate::proofs::Refusing::whole_stops, crate::proofs::Refusing::trails, crate::proofs::Refusing::whole_ends, crate::proofs::Refusing::nothing_left))]
fn whole_term(alloc: Global, b: &[u8]) -> Result<Term, Stop>
    ensures value { IfOk result (λ t. whole (read_whole_term b.now) ≡ value (tree t) []) }
    ensures storable { IfOk result (λ t. IsStorable (tree t)) }
    ensures stops { IfErr result (λ stop. Stops (length b.now) (whole (read_whole_term b.now)) stop) }
{
    let mut place = 0;
    let term = read_owned(alloc, b, &mut place)?;
    if place < b.len() {
        return Err(Stop::Wrong(Defect::Trailing, place));
    }
    Ok(term)
}

/// The term that all of the bytes spell.
#[tactic(auto, using(crate::proofs::Refusing::small_of, crate::proofs::Refusing::refuses_of))]
pub fn decode_term(alloc: Global, b: &[u8]) -> Result<Term, DecodeFault>
    requires { length b.now < 2 ^ 32 }
    ensures value { IfOk result (λ t. whole (read_whole_term b.now) ≡ value (tree t) []) }
    ensures storable { IfOk result (λ t. IsStorable (tree t)) }
    ensures fault { IfErr result (λ f. Refuses Opaques (length b.now) (whole (read_whole_term b.now)) f) }
{
    match whole_term(alloc, b) {
        Ok(term) => Ok(term),
        Err(stop) => Err(stop.in_segment(Segment::Opaques)),
    }
}

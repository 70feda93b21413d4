//! Hypotheses of a section, as the program keeps them.
ghost use Rattle.std.specs.Prelude.{◌≡◌, IfOk};
ghost use Rattle.std.specs.Option.{option_map};
ghost use Rattle.section_uses.specs.Kept.{hypothesis, shared_tree};

use cic_names::GlobalId;
use cic_terms::Term;
use memory::NoMemory;
use std::rc::Rc;

/// A hypothesis of a section: a variable with its type, or a let, which has a body too. A term speaks of it as of a
/// constant.
#[derive(Drop)]
pub struct Hypothesis {
    pub id: GlobalId,
    pub ty: Rc<Term>,
    pub body: Option<Rc<Term>>,
}

fn copy_body(body: &Option<Rc<Term>>) -> Result<Option<Rc<Term>>, NoMemory>
    ensures { IfOk result (λ b. option_map shared_tree b ≡ option_map shared_tree body.now) }
{
    match body {
        None => Ok(None),
        Some(body) => Ok(Some(body.clone()?)),
    }
}

impl Hypothesis {
    /// The same hypothesis, which shares its names and terms.
    pub fn copy(&self) -> Result<Hypothesis, NoMemory>
        ensures { IfOk result (λ h. hypothesis h ≡ hypothesis self.now) }
    {
        let id = self.id.clone()?;
        let ty = self.ty.clone()?;
        let body = copy_body(&self.body)?;
        Ok(Hypothesis { id, ty, body })
    }
}

//! Small examples of the definitions: each function has an empty body, and its contract is the example.
ghost use Rattle.std.specs.Prelude.{◌≡◌, [], ◌∷◌, None, Some, false, true};
ghost use Rattle.cic_terms.specs.Tree.{app, prod, rel};
ghost use Rattle.cic_rules.specs.Guard.{argument_marks, plain, smaller};
ghost use Rattle.cic_rules.specs.Shapes.{no_more, own_block, shape_of_type, shaped};
ghost use Rattle.guard_shapes.specs.calls.Parts.{is_empty, shape_of_codomain, shape_of_variable};
ghost use Rattle.guard_shapes.specs.Denotes.{guard_shape, guard_shapes};
ghost use Rattle.guard_shapes.specs.Marks.{mark};

use crate::marks::Mark;
use crate::rows::{ShapeRow, TypeShape};

/// A parameter that stands alone has its shape, also under a product; an applied one has none.
pub fn shapes_of_parameters()
    ensures alone { shape_of_type [] [] (shaped own_block no_more) no_more (rel 0) ≡ Some own_block }
    ensures under { shape_of_type [] [] (shaped own_block no_more) no_more (prod (rel 0) (rel 1)) ≡ Some own_block }
    ensures bound { shape_of_type [] [] (shaped own_block no_more) no_more (prod (rel 0) (rel 0)) ≡ None }
    ensures applied { shape_of_type [] [] (shaped own_block no_more) no_more (app (rel 0) (rel 0)) ≡ None }
{}

/// An argument whose type is a parameter with a shape is smaller, one whose type is another argument is not.
pub fn marks_of_arguments()
    ensures { argument_marks [] [] (shaped own_block no_more) (rel 0 ∷ rel 0 ∷ []) ≡ smaller own_block ∷ plain ∷ [] }
{}

/// What the values of the program stand for.
pub fn values_denote()
    ensures own_type { guard_shape TypeShape.Own ≡ own_block }
    ensures no_shapes { guard_shapes ShapeRow.Empty ≡ no_more }
    ensures unmarked { mark Mark.Plain ≡ plain }
{}

/// A variable, and a product, has a shape under no arguments alone.
pub fn arguments_hide_shapes()
    ensures without { is_empty no_more ≡ true }
    ensures one { is_empty (shaped own_block no_more) ≡ false }
    ensures variable { shape_of_variable (shaped own_block no_more) (shaped own_block no_more) 0 ≡ None }
    ensures product { shape_of_codomain [] [] (shaped own_block no_more) (shaped own_block no_more) (rel 1) ≡ None }
{}

ghost use Rattle.std.specs.Prelude.{◌≡◌, ℕ, ◌++◌, Contains, IsPermutation};
ghost use Rattle.cic_names.specs.declared.name.GlobalId.{GlobalId};
ghost use Rattle.cic_rules.specs.Environment.{Environment, Declaration, environment_ids, meaning};
ghost use Rattle.cic_rules.specs.Formed.{Distinct};
ghost use Rattle.cic_rules.specs.Reach.{Reached};
ghost use Rattle.cic_counted.specs.Checking.{check_declaration};
ghost use Rattle.cic_soundness.specs.OpaqueBodies.{without_opaque_bodies};

/// The check of a declaration depends on no more of the environment than what the ids stand for that it
/// reaches: it answers the same, with the same constraints and steps, over another environment in which
/// each of these stands for the same. An id that is reached and not declared stands for nothing in both.
pub fn check_depends_on_what_it_reaches()
    ensures { (E E' : Environment) (d : Declaration) (budget : ℕ) → ((id : GlobalId) → Reached E d id → meaning E id ≡ meaning E' id) → check_declaration E d budget ≡ check_declaration E' d budget }
{}

/// Declarations of which a declaration reaches no id do not change its check, wherever they stand in the
/// environment.
pub fn unreached_declarations_are_not_seen()
    ensures { (before more after : Environment) (d : Declaration) (budget : ℕ) → ((id : GlobalId) → Reached (before ++ after) d id → ¬ Contains (environment_ids more) id) → check_declaration (before ++ after) d budget ≡ check_declaration (before ++ (more ++ after)) d budget }
{}

/// The check of a declaration answers the same over two environments in which each id stands for the same.
pub fn check_sees_what_ids_stand_for()
    ensures { (E E' : Environment) (d : Declaration) (budget : ℕ) → ((id : GlobalId) → meaning E id ≡ meaning E' id) → check_declaration E d budget ≡ check_declaration E' d budget }
{}

/// The check of a declaration does not depend on opaque bodies of the environment: it answers the same over
/// two environments that differ in no more than these, also where some of them are not there.
pub fn opaque_bodies_are_not_seen()
    ensures { (E E' : Environment) (d : Declaration) (budget : ℕ) → without_opaque_bodies E ≡ without_opaque_bodies E' → check_declaration E d budget ≡ check_declaration E' d budget }
{}

/// The check of a declaration does not depend on the order of the environment, where no id is declared
/// twice.
pub fn order_is_not_seen()
    ensures { (E E' : Environment) (d : Declaration) (budget : ℕ) → IsPermutation E E' → Distinct (environment_ids E) → check_declaration E d budget ≡ check_declaration E' d budget }
{}

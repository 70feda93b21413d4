ghost use Rattle.std.specs.Prelude.{◌≡◌, ◌≢◌, ◌≤◌, ◌<◌, ℕ};
ghost use Rattle.cic_terms.specs.Tree.{Tree};
ghost use Rattle.cic_rules.specs.Environment.{Environment, Context, Declaration};
ghost use Rattle.cic_counted.specs.Outcome.{spent};
ghost use Rattle.cic_counted.specs.Evaluation.{whnf_at, conv_at, cumul_at};
ghost use Rattle.cic_counted.specs.Inference.{calls_at};
ghost use Rattle.cic_counted.specs.Checking.{Found, accepts, rejects, check_declaration};
ghost use Rattle.cic_soundness.specs.Budgets.{StaysWhenRaised, HasSteps};

/// A counted call that is not spent answers the same within a greater budget, at every depth.
pub fn counted_calls_stay_when_the_budget_is_raised()
    ensures evaluation { (E : Environment) (G : Context) (k : ℕ) (t : Tree) → StaysWhenRaised (whnf_at k E G t) }
    ensures conversion { (E : Environment) (G : Context) (k : ℕ) (t t' : Tree) → StaysWhenRaised (conv_at k E G t t') }
    ensures subtyping { (E : Environment) (G : Context) (k : ℕ) (t t' : Tree) → StaysWhenRaised (cumul_at k E G t t') }
    ensures inference { (E : Environment) (G : Context) (k : ℕ) (t : Tree) → StaysWhenRaised ((calls_at k E).infer G t) }
    ensures check { (E : Environment) (G : Context) (k : ℕ) (t T : Tree) → StaysWhenRaised ((calls_at k E).check G t T) }
    ensures sort { (E : Environment) (G : Context) (k : ℕ) (t : Tree) → StaysWhenRaised ((calls_at k E).sort_of G t) }
{}

/// A counted call that is done took a number of steps: below them it is spent, and from them on it is done
/// with the same value in as many.
pub fn counted_calls_have_their_steps()
    ensures evaluation { (E : Environment) (G : Context) (k : ℕ) (t : Tree) → HasSteps (whnf_at k E G t) }
    ensures conversion { (E : Environment) (G : Context) (k : ℕ) (t t' : Tree) → HasSteps (conv_at k E G t t') }
    ensures subtyping { (E : Environment) (G : Context) (k : ℕ) (t t' : Tree) → HasSteps (cumul_at k E G t t') }
    ensures inference { (E : Environment) (G : Context) (k : ℕ) (t : Tree) → HasSteps ((calls_at k E).infer G t) }
    ensures check { (E : Environment) (G : Context) (k : ℕ) (t T : Tree) → HasSteps ((calls_at k E).check G t T) }
    ensures sort { (E : Environment) (G : Context) (k : ℕ) (t : Tree) → HasSteps ((calls_at k E).sort_of G t) }
{}

/// A greater budget accepts the same declaration, with the same constraints and the same steps.
pub fn greater_budget_accepts_the_same()
    ensures { (E : Environment) (d : Declaration) (budget greater : ℕ) (found : Found) → check_declaration E d budget ≡ accepts found → budget ≤ greater → check_declaration E d greater ≡ accepts found }
{}

/// Within a budget below the steps of an accepted declaration, its check is spent; and where it is spent, it
/// is spent within every smaller budget.
pub fn spent_below_the_steps()
    ensures below { (E : Environment) (d : Declaration) (budget smaller : ℕ) (found : Found) → check_declaration E d budget ≡ accepts found → smaller < found.steps → check_declaration E d smaller ≡ rejects spent }
    ensures lowered { (E : Environment) (d : Declaration) (budget smaller : ℕ) → check_declaration E d budget ≡ rejects spent → smaller ≤ budget → check_declaration E d smaller ≡ rejects spent }
{}

/// An answer other than spent stays when the budget is raised: acceptance, a refusal with its cause, and
/// what is too deep.
pub fn answer_stays_when_the_budget_is_raised()
    ensures { (E : Environment) (d : Declaration) (budget greater : ℕ) → check_declaration E d budget ≢ rejects spent → budget ≤ greater → check_declaration E d greater ≡ check_declaration E d budget }
{}

/// The check of an accepted declaration took no more steps than its budget, and accepts it within every
/// budget of as many steps, also within a smaller one.
pub fn accepted_within_its_steps()
    ensures steps { (E : Environment) (d : Declaration) (budget : ℕ) (found : Found) → check_declaration E d budget ≡ accepts found → found.steps ≤ budget }
    ensures accepted { (E : Environment) (d : Declaration) (budget other : ℕ) (found : Found) → check_declaration E d budget ≡ accepts found → found.steps ≤ other → check_declaration E d other ≡ accepts found }
{}

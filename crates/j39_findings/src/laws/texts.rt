//! The law of texts.
ghost use Rattle.std.specs.Prelude.{ℕ};
ghost use Rattle.j39_network.specs.declared.plan.Plan.{Plan};
ghost use Rattle.j39_findings.specs.declared.checking.finding.Finding.TheVariants.{TextOutside};
ghost use Rattle.j39_findings.specs.Findings.{Holds};
ghost use Rattle.j39_network.specs.TextPlaces.{HasNoTexts};

/// Of a plan without texts F15 says nothing.
pub fn plans_without_texts()
    ensures { (plan : Plan) → HasNoTexts plan → (g t : ℕ) → ¬ Holds plan (TextOutside g t) }
{}

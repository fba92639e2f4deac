//! A plan that is kept from one planning point to the next.
ghost use Rattle.std.specs.Prelude.{◌≡◌, ◌↔◌, IfErr, IfOk, IsTrue};
ghost use Rattle.plan_keeper.specs.Apart.{AreApart};
ghost use Rattle.plan_keeper.specs.Kept.{IsKeptApart};
ghost use Rattle.run_plan.specs.inner.Kept.{flags_in};

use plan_keeper::Planned;
use std::marker::Model;

/// A plan in force, which contracts see as the plan. Where the vertices of its graph stand apart, it is brought up to date at
/// those that have changed, and not made anew.
#[derive(Drop)]
pub struct KeptPlan {
    made: Planned,
    /// Whether each vertex is needed, if they stand apart: side by side, so that those that change are found without a look at the vertices.
    needed: Option<Vec<bool>>,
}

impl Model for KeptPlan {
    ghost use Rattle.plan_keeper.specs.declared.planned.Planned.{Planned};
    ghost use Rattle.run_plan.specs.inner.Kept.{IsKeptWith};

    ghost Value = { Planned };

    ghost view = { λ fields. fields.made };

    ghost invariant = { λ fields. IsKeptWith fields.made fields.needed };
}

/// The plan that comes next, and how it came to be.
#[derive(Drop)]
pub struct NextPlan {
    pub plan: KeptPlan,
    /// Whether the last plan was brought up to date; else it was made anew.
    pub brought: bool,
}

impl KeptPlan {
    /// A plan of a graph whose vertices stand apart, and whether each of these is needed.
    pub(crate) fn apart(made: Planned, needed: Vec<bool>) -> KeptPlan
        requires kept { IsKeptApart made }
        requires needed { needed.items ≡ flags_in made.graph }
        ensures { result ≡ made }
    {
        KeptPlan {
            made,
            needed: Some(needed),
        }
    }

    /// A plan of any other graph.
    pub(crate) fn whole(made: Planned) -> KeptPlan
        requires { ¬ AreApart made.graph }
        ensures { result ≡ made }
    {
        KeptPlan { made, needed: None }
    }

    /// The graph, its plan, the charges and the cost.
    pub fn made(&self) -> &Planned
        ensures { result.now ≡ self.now }
    {
        &self.made
    }

    /// The same, taken out.
    pub fn into_made(self) -> Planned
        ensures { result ≡ self }
    {
        self.made
    }

    /// Whether the vertices of its graph stand apart. Where they don't it can't be brought up to date.
    pub fn is_apart(&self) -> bool
        ensures { IsTrue result ↔ AreApart self.now.graph }
    {
        self.needed.is_some()
    }

    /// The plan, as one that can be brought up to date where the vertices of its graph stand apart, and whether each is needed.
    pub(crate) fn into_apart(self) -> Result<(Planned, Vec<bool>), Planned>
        ensures ok { IfOk result (λ kept. IsKeptApart kept.0 × (kept.0.graph ≡ self.graph)
            × (kept.1.items ≡ flags_in kept.0.graph)) }
        ensures err { IfErr result (λ made. ¬ AreApart self.graph) }
    {
        let KeptPlan { made, needed } = self;
        match needed {
            Some(needed) => Ok((made, needed)),
            None => Err(made),
        }
    }
}

//! Which known jobs were touched since the last plan.
ghost use Rattle.std.specs.Prelude.{◌≡◌, [], None, Some, option_map};
ghost use Rattle.run_core.specs.inner.Touched.{Touches};

use std::marker::Model;

/// The numbers of the jobs that were touched, where they are few. It takes no memory but its own, so no touch fails.
#[derive(Drop)]
pub(crate) struct Touched {
    numbers: [usize; 8],
    count: usize,
    /// Any job may have been touched.
    all: bool,
}

impl Model for Touched {
    ghost use Rattle.std.specs.Prelude.{◌≤◌, ℕ, List, Option, Some, None, cond, take};
    ghost use Rattle.std.specs.Coded.{coded_list, coded_option, coded_ℕ};

    ghost Value = { Option (List ℕ) };

    ghost coded = { coded_option (coded_list coded_ℕ) };

    ghost view = { λ fields. cond fields.all None (Some (take fields.count fields.numbers)) };

    ghost invariant = { λ fields. fields.count ≤ 8 };
}

impl Touched {
    /// Any job may have been touched.
    pub(crate) fn all() -> Touched
        ensures { result ≡ None }
    {
        Touched {
            numbers: [0; 8],
            count: 0,
            all: true,
        }
    }

    /// No job was touched.
    pub(crate) fn none() -> Touched
        ensures { result ≡ Some [] }
    {
        Touched {
            numbers: [0; 8],
            count: 0,
            all: false,
        }
    }

    /// The job of this number is touched.
    pub(crate) fn add(&mut self, number: usize)
        ensures { Touches number self.old self.new }
    {
        if self.count < 8 {
            self.numbers[self.count] = number;
            self.count += 1;
        } else {
            self.all = true;
        }
    }

    /// The numbers of those that were touched, unless any may have been.
    pub(crate) fn few(&self) -> Option<&[usize]>
        ensures { option_map (λ numbers. numbers.now) result ≡ self.now }
    {
        if self.all {
            None
        } else {
            Some(&self.numbers[..self.count])
        }
    }
}

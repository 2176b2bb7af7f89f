// What is searched.
ghost use Rattle.std.specs.Prelude.{◌≡◌};
ghost use Rattle.search.specs.Questions.{IsSearchable, Question};

use crate::finding::Finding;

/// Open meetings, whose orders may be kept as in force or turned, and what that costs. Bit j of a
/// word stands for the j-th of them.
pub trait Problem {
    // What is asked.
    ghost question: { Self → Question };

    /// The cost of the orders in force.
    fn start(&self) -> u64
        ensures { result ≡ (question self.now).start };

    /// Looks at the decisions made, with all other meetings left out. What is asked stays the same;
    /// what was worked out may be kept.
    fn evaluate(&mut self, decided: u64, turned: u64) -> Finding
        ensures found { result ≡ (question self.old).finding decided turned }
        ensures same { question self.new ≡ question self.old };

    ghost searchable: { (problem : Self) → IsSearchable (question problem) };
}

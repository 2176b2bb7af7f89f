// The figures that a layer has for shuttles.
ghost use Rattle.std.specs.Prelude.{◌≡◌};
ghost use Rattle.costs.specs.Figures.{figure as figure_of};

// For how many shuttles there is a figure of its own.
pub const FIGURES: usize = 32;

// The figure of a shuttle; one beyond the last has the last.
pub(crate) fn figure(figures: &[u32; FIGURES], shuttle: usize) -> u32
    ensures { result ≡ figure_of figures.now shuttle }
{
    figures[shuttle.min(FIGURES - 1)]
}

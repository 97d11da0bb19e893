//! How a process sees the nets.

ghost use Rattle.std.specs.Prelude.{◌≡◌, ℕ};
ghost use Rattle.sim_standard.specs.declared.net_view.NetView.{NetView as view};

use sim_standard::NetView;

/// The nets as a process sees them, by the positions of ports and signals in its body.
pub trait Nets {
    /// The view of the port or signal at each position.
    ghost look: { Self → ℕ → view };

    /// The view of the port or signal at a position.
    fn view(&self, object: usize) -> NetView
        ensures { result ≡ look self.now object };
}

// Obligations as bits of a net.
use c_meaning::Duty;
use circuits::{Bit, Net};
use sym_state::DrawSite;
use wv_base::Seq;

/// The obligations of a program in their order, a net, the failing bit of each obligation, and the places where runs
/// draw. Under each input of the net one havoc run is meant: which values it draws, and at which obligation it fails.
#[derive(Drop)]
pub struct Obligations {
    pub list: Seq<Duty>,
    pub net: Net,
    pub failing: Seq<Bit>,
    pub sites: Seq<DrawSite>,
}

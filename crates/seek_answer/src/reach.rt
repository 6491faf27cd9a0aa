// All runs that seek within a bound, as one bit of a net.
use circuits::{Bit, Net};
use sym_state::DrawSite;
use wv_base::Seq;

/// A net, the bit that is true where a run hits, and the places where runs draw. Under each input of the net one run
/// that seeks is meant: which values it draws, and whether it hits.
#[derive(Drop)]
pub struct Reach {
    pub net: Net,
    pub reach: Bit,
    pub sites: Seq<DrawSite>,
}

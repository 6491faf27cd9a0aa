//! Software verification witnesses, format 2.0: the fields that the schema lists, as one value. `witness_of` is the
//! witness of a YAML tree, or the first rule of the schema that isn't met; `tree_of` is the tree of a witness.
#![tactic(auto)]

mod canonical;
mod claim;
mod entry;
mod fault;
mod field;
mod integer;
mod laws;
mod location;
mod metadata;
mod place;
mod reach;
mod rule;
mod schema;
mod segment;
mod waypoint;
mod witness;

pub use canonical::tree_of;
pub use fault::SchemaFault;
pub use integer::integer_in;
pub use laws::written_witnesses_are_read;
pub use schema::witness_of;
pub use witness::{
    Constraint, Content, Entry, FileHash, Invariant, InvariantKind, Location, Metadata, Segment,
    WayKind, Waypoint, Witness,
};

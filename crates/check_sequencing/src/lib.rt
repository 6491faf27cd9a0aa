//! The order of operands (C11 6.5p2): what expressions do, through calls too, and which operands must not stand without
//! an order.
#![tactic(auto)]

mod bodies;
mod clash;
mod declarations;
mod effect;
mod kept;
mod marks;
mod memo;
mod operands;
mod seen;
mod walk;

pub use declarations::Declarations;
pub use effect::Effect;
pub use kept::Kept;
pub use walk::Walk;

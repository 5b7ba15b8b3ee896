// What a problem file holds, whichever of the four scales it is in.
#![tactic(auto)]

mod kind;
mod limit;
mod looking;
mod summary;

pub use kind::Kind;
pub use limit::most_read;
pub use looking::inspect;
pub use summary::Summary;

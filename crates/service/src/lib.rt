//! Sessions and refiners over published rounds of one program.
#![tactic(auto)]

mod admit;
mod advance;
mod answer;
mod gate;
mod job;
mod lanes;
mod make;
mod page;
mod refine;
mod refining;
mod run;
mod serve;
mod session;
mod shop;
mod short;
mod step;

pub use gate::{Gate, OpenGate, Place, Point};
pub use refine::refiner;
pub use serve::serve_script;
pub use session::{Reply, Session};
pub use shop::{Seat, Shop};

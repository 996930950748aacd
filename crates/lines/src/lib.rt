// Lines on the bytes of a stripe: encode, scrub and rebuild have the places of a line from `Listing` alone, built by `build`, tested by `wrong_line`.
#![tactic(auto)]

mod building;
mod listing;
mod stripes;

pub use building::build;
pub use listing::{Listing, place};
pub use stripes::Stripe;

//! What a proof of a step consists of.

use linear_certificates::Certificate;
use step_searches::Use;

/// A certificate for all paths from here on, or two plans for the cases of the next `if`.
#[derive(Drop)]
pub enum Plan {
    Refute(Certificate),
    Follow(Box<Plan>, Box<Plan>),
}

/// The laws of quorums that are used at the end of each two paths, and the certificates.
#[derive(Drop)]
pub struct Proof {
    pub uses: Vec<Use>,
    pub plan: Plan,
}

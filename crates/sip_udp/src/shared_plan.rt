//! What the users of `listen` share, one for each agent.

use crate::listen_plan::ListenPlan;
use std::alloc::{AllocError, Global};
use std::sync::Arc;
use std::sync::atomic::{AtomicU64, Ordering};

/// How INVITEs are answered, and how many were.
#[derive(Drop)]
pub(crate) struct SharedPlan {
    /// The agents' own IP address.
    pub(crate) ip: [u8; 4],
    pub(crate) plan: ListenPlan,
    /// How many calls got a 2xx.
    pub(crate) answered: AtomicU64,
}

impl SharedPlan {
    /// # Errors
    ///
    /// Memory ran out.
    pub(crate) fn new(
        alloc: Global,
        ip: [u8; 4],
        plan: ListenPlan,
    ) -> Result<Arc<SharedPlan>, AllocError> {
        let shared = SharedPlan {
            ip,
            plan,
            answered: AtomicU64::new(0),
        };
        match Arc::new(alloc, shared) {
            Ok(shared) => Ok(shared),
            Err(_) => Err(AllocError),
        }
    }

    /// Whether as many calls got a 2xx as have to.
    pub(crate) fn is_satisfied(&self) -> bool {
        self.answered.load(Ordering::SeqCst) >= u64::from(self.plan.must_answer)
    }
}

//! An endpoint that shows what it is asked.

use juniper_http::{Endpoint, Outcome, Reply};
use juniper_request::GraphQLRequest;
use std::alloc::{AllocError, Global};

/// Counts what is put to it, and shows it: `<COUNT DOCUMENT NAME>`. It refuses a document `no`, has no memory for `memory`, and takes
/// `write` for one that writes.
#[derive(Drop)]
pub struct Shows {
    /// How many requests were put to it.
    pub count: u64,
}

impl Endpoint for Shows {
    ghost replies = { λ old request may_write answer new. Unit {0} };

    fn reply(&mut self, alloc: Global, request: &GraphQLRequest<'_>, may_write: bool) -> Reply {
        let outcome = match (request.query, may_write) {
            ("no", _) => Outcome::Refused,
            ("memory", _) => Outcome::OutOfMemory,
            ("write", false) => Outcome::Writes,
            _ => Outcome::Executed,
        };
        self.count = self.count.saturating_add(1);
        let count = self.count;
        let query = request.query;
        let name = request.operation_name.unwrap_or("-");
        match format!(in alloc; "<{count} {query} {name}>") {
            Ok(line) => Reply { outcome, line },
            Err(AllocError) => Reply {
                outcome: Outcome::OutOfMemory,
                line: String::new(alloc),
            },
        }
    }
}

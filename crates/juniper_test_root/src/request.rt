//! Requests to a root whose schema and answers are texts.

/// A request to a root whose schema and answers are texts.
#[derive(Clone, Copy, Debug)]
pub struct Request {
    /// The schema.
    pub schema: &'static str,
    /// The script.
    pub answers: &'static str,
    /// The document.
    pub document: &'static str,
    /// The name of the operation; empty where none is given.
    pub operation_name: &'static str,
    /// The values of the variables, as an object of JSON; empty where none are given.
    pub variables: &'static str,
    /// What resolvers are shown at fields, a line for each call.
    pub sights: &'static str,
    /// What the executor's twin shows them, where it is something else.
    pub twin_sights: &'static str,
}

impl Request {
    /// What the executor's twin shows resolvers.
    pub(crate) fn joined_sights(&self) -> &'static str {
        if self.twin_sights.is_empty() {
            self.sights
        } else {
            self.twin_sights
        }
    }
}

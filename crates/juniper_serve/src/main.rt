//! The demo, served over standard input and output, with a line on standard error for each request:
//!
//! - `juniper_serve` answers the requests of one connection of HTTP/1.1;
//! - `juniper_serve --lines` answers a request of JSON in each line by a line of JSON, all in one context;
//! - `juniper_serve --sdl` prints the schema as a text of the language for type systems.
#![tactic(auto)]

use juniper_demo_server::{DemoContext, demo_root};
use juniper_endpoint::{ServerLimits, report, serve};
use std::process::ExitCode;

fn main(rt: HostRuntime) -> ExitCode {
    match demo_root(rt.alloc()) {
        Ok(root) => serve(&rt, &root, DemoContext::new(), &ServerLimits::DEFAULT),
        Err(error) => report(&rt, error),
    }
}

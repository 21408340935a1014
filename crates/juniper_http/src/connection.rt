//! A whole connection, over a reader and a writer.

ghost use Rattle.std.specs.Prelude.{OnOk};
ghost use Rattle.http_server.specs.History.{History, IsDone};
ghost use Rattle.juniper_http.specs.Connections.{Conversation};

use http_server::{Config, Connection, Service, serve};
use std::alloc::Global;
use std::hash::RandomState;
use std::io;
use std::io::{Read, Write};

/// Serves one connection of HTTP/1.1 from its first byte on, until it is done: reads requests, has the service answer each, in order, and
/// writes the answers. The peer chooses the names of fields, so the keys are secret.
///
/// An error where the reader or the writer fails, or memory is refused; what was read and written until then was served all the same.
pub fn serve_connection<S: Service, R: Read, W: Write>(
    alloc: Global,
    keys: RandomState,
    config: Config,
    service: &mut S,
    reader: &mut R,
    writer: &mut W,
) -> io::Result<()>
    ensures { (h : History) × Conversation S.answers config service.old service.new (R.remaining reader.old) (R.remaining reader.new)
        (W.contents writer.old) (W.contents writer.new) h × OnOk result (IsDone h) }
{
    let mut connection = Connection::new(alloc, keys, config);
    serve(&mut connection, service, reader, writer)
}

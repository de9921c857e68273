//! Links over sockets, which tell no bytes.
ghost use Rattle.std.specs.Prelude.{◌≡◌, ◌+◌, ◌≤◌, ◌↔◌, length, IfOk, IsNone, OnErr, option_to_list};
ghost use Rattle.tb_gates.specs.Gates.{most_links, NextLink, FailsToOpen};

use crate::gate::Gate;
use crate::link::Link;
use std::io::{self, ErrorKind, Read, Write};
use std::net::{TcpListener, TcpStream};
use tb_link::{Failed, Faults, Sink, Source};

/// A link over a socket. Its counts of faults rise at each error but an interruption, after which it tries again.
#[derive(Drop)]
pub struct TcpConn {
    stream: TcpStream,
    reads: u64,
    read_faults: Faults,
    write_faults: Faults,
}

impl TcpConn {
    /// A link over the socket. It has had no fault.
    pub fn new(stream: TcpStream) -> TcpConn
        ensures { (result.reads ≡ 0) × (result.read_faults.count ≡ 0) × (result.write_faults.count ≡ 0) }
    {
        // Replies to requests in a row are written one by one: none is to wait until the one before it was
        // acknowledged. A system that refuses this is slower and nothing else.
        let _ = stream.set_nodelay(true);
        TcpConn {
            stream,
            reads: 0,
            read_faults: Faults::none(),
            write_faults: Faults::none(),
        }
    }
}

// One read, again and again while a signal interrupts it.
fn read_uninterrupted(stream: &mut TcpStream, into: &mut [u8]) -> io::Result<usize>
    ensures within { IfOk result (λ n. n ≤ length into.old) }
    ensures length { length into.new ≡ length into.old }
{
    for _ in 0..u64::MAX {
        match stream.read(into) {
            Ok(count) => return Ok(count),
            Err(error) if error.kind() == ErrorKind::Interrupted => {}
            Err(error) => return Err(error),
        }
    }
    Err(ErrorKind::Interrupted.into())
}

impl Source for TcpConn {
    ghost use Rattle.tb_gates.specs.Tcp.{conn_source, conn_sink};

    ghost source = { conn_source };

    ghost sink_beside = { conn_sink };

    fn read(&mut self, into: &mut [u8]) -> Result<usize, Failed> {
        self.reads = self.reads.saturating_add(1);
        match read_uninterrupted(&mut self.stream, into) {
            Ok(count) => Ok(count),
            Err(_) => Err(self.read_faults.rise()),
        }
    }

    ghost bounded = { λ self. self.read_faults.bounded };
}

impl Sink for TcpConn {
    ghost use Rattle.tb_gates.specs.Tcp.{conn_source, conn_sink};

    ghost sink = { conn_sink };

    ghost source_beside = { conn_source };

    fn write(&mut self, bytes: &[u8]) -> Result<(), Failed> {
        match self.stream.write_all(bytes) {
            Ok(()) => Ok(()),
            Err(_) => Err(self.write_faults.rise()),
        }
    }

    ghost bounded = { λ self. self.write_faults.bounded };
}

impl Link for TcpConn {
    ghost use Rattle.std.specs.Prelude.{refl};

    ghost sink_is = { λ link. refl };

    ghost source_is = { λ link. refl };
}

/// The links that come in at a listener, at most so many. Its count of faults rises where an accept failed each time that
/// it was tried.
#[derive(Drop)]
pub struct TcpGate<'a> {
    listener: &'a TcpListener,
    left: u64,
    given: u64,
    faults: Faults,
    ghost few: { given + left ≤ most_links },
}

impl<'a> TcpGate<'a> {
    /// Gives at most `links` links, which are at most 1,000,000.
    pub fn new(listener: &'a TcpListener, links: u64) -> TcpGate<'a>
        requires { links ≤ most_links }
        ensures { (result.left ≡ links) × (result.given ≡ 0) × (result.faults.count ≡ 0) }
    {
        TcpGate {
            listener,
            left: links,
            given: 0,
            faults: Faults::none(),
        }
    }
}

// How often in a row an accept is tried.
const TRIES: u64 = 16;

// The next stream, tried a fixed number of times in a row.
fn accept(listener: &TcpListener) -> Option<TcpStream> {
    for _ in 0..TRIES {
        if let Ok((stream, _)) = listener.accept() {
            return Some(stream);
        }
    }
    None
}

impl Gate for TcpGate<'_> {
    ghost use Rattle.tb_gates.specs.Gates.{fewer_given};
    ghost use Rattle.tb_gates.specs.Tcp.{tcp_gate};

    type Conn = TcpConn;

    ghost gate = { tcp_gate };

    fn next(&mut self) -> Result<Option<TcpConn>, Failed>
        ensures gives { IfOk result (NextLink (tcp_gate self.old) (tcp_gate self.new)) }
        ensures fails { OnErr result (FailsToOpen (tcp_gate self.old) (tcp_gate self.new)) }
        // It gives none exactly where it has given as many as it may.
        ensures exactly { IfOk result (λ link. IsNone link ↔ (self.old.left ≡ 0)) }
        ensures left { IfOk result (λ link. self.old.left ≡ self.new.left + length (option_to_list link)) }
    {
        if self.left == 0 {
            return Ok(None);
        }
        match accept(self.listener) {
            Some(stream) => {
                self.left -= 1;
                self.given += 1;
                Ok(Some(TcpConn::new(stream)))
            }
            None => Err(self.faults.rise()),
        }
    }

    // The stream is closed.
    fn done(&mut self, _conn: TcpConn) {}

    ghost bounded = { λ self. self.faults.bounded };

    ghost few = { λ self. fewer_given self.given self.left self.few };

    ghost fewer = { λ self. tt };
}

//! Tests of the public calls: the objects in memory, and each adapter once over a real socket or clock.
use std::alloc::Global;
use std::io::{Read, Write};
use std::net::{TcpListener, TcpStream};
use std::test::Fail;
use tb_gates::*;
use tb_link::{Failed, Sink, Source, TextSink, TextSource};
use tb_units::Moment;

fn pair(alloc: Global, text: &str) -> Result<PairLink, Fail> {
    let bytes = text.as_bytes().to_vec(alloc)?;
    Ok(PairLink {
        source: TextSource::new(bytes, 8, Vec::new(alloc)),
        sink: TextSink::new(alloc, 8, Vec::new(alloc))?,
    })
}

#[test]
fn a_gate_gives_its_links_and_takes_them_back(rt: HostRuntime) -> Result<(), Fail> {
    let mut links = Vec::new(rt.alloc());
    links.push(pair(rt.alloc(), "a")?)?;
    let mut gate = ListGate::new(rt.alloc(), links, vec![in rt.alloc(); 0u64; 1]?)?;
    assert!(rt; matches!(gate.next(), Err(Failed)), "the call numbered 0");
    let Ok(Some(mut link)) = gate.next() else {
        assert!(rt; false, "the gate gave no link");
        return Ok(());
    };
    let mut buffer = [0u8; 4];
    assert_eq!(rt; link.read(&mut buffer), Ok(1));
    assert_eq!(rt; link.write(b"xy"), Ok(()));
    gate.done(link);
    assert!(rt; matches!(gate.next(), Ok(None)));
    assert_eq!(rt; gate.finished().len(), 1);
    assert_eq!(rt; gate.finished()[0].sink.bytes(), b"xy".as_slice());
    Ok(())
}

#[test]
fn a_clock_repeats_its_last_moment(rt: HostRuntime) -> Result<(), Fail> {
    let first = Moment {
        seconds: 1_730_700_000,
    };
    let second = Moment {
        seconds: 1_730_700_005,
    };
    let moments = Vec::from_array(rt.alloc(), [first, second])?;
    let mut clock = ListClock::new(moments);
    assert_eq!(rt; clock.now().seconds, 1_730_700_000);
    assert_eq!(rt; clock.now().seconds, 1_730_700_005);
    assert_eq!(rt; clock.now().seconds, 1_730_700_005);
    Ok(())
}

#[test]
fn a_link_over_a_loopback_socket(rt: HostRuntime) -> Result<(), Fail> {
    let listener = TcpListener::bind(&rt, "127.0.0.1:0")?;
    let mut client = TcpStream::connect(&rt, listener.local_addr()?)?;
    client.write_all(b"ask")?;
    let mut gate = TcpGate::new(&listener, 1);
    let Ok(Some(mut link)) = gate.next() else {
        assert!(rt; false, "the gate gave no link");
        return Ok(());
    };
    let mut buffer = [0u8; 3];
    assert_eq!(rt; link.read(&mut buffer), Ok(3));
    assert_eq!(rt; buffer, *b"ask");
    assert_eq!(rt; link.write(b"answer"), Ok(()));
    gate.done(link);
    assert!(rt; matches!(gate.next(), Ok(None)), "it gives one link");
    let mut answer = [0u8; 6];
    client.read_exact(&mut answer)?;
    assert_eq!(rt; answer, *b"answer");
    Ok(())
}

#[test]
fn the_system_tells_a_moment(rt: HostRuntime) -> Result<(), Fail> {
    let mut clock = SystemClock::new(&rt);
    let first = clock.now();
    assert!(rt; first.seconds > Moment::FIRST);
    assert!(rt; clock.now().seconds >= first.seconds);
    Ok(())
}

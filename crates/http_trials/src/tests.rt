use crate::failing_streams::{FailingReader, FailingWriter};
use crate::nonces::{ASKS_NONCE, FIRST_NONCE, SECOND_NONCE, serve};
use crate::trial::{Trial, new_desk_passes};
use desk::{Desk, DeskFault};
use desk_http::{IoFault, Served, ask};
use std::alloc::Global;
use std::process::Abort;
use std::test::Fail;
use store_api::Storage;

// A request with a body.
const POSTED: &[u8] = b"POST /new-account HTTP/1.1\r\nContent-Length: 2\r\n\r\n{}";

// Whether a request had its reply.
fn is_whole(served: Result<Served, IoFault>) -> bool {
    match served {
        Ok(served) => served.cause == None && served.written,
        Err(_) => false,
    }
}

// The reply where there is nothing at a path of the offices.
const NOTHING_HERE: &[u8] =
    b"HTTP/1.1 404 Not Found\r\nConnection: close\r\nContent-Length: 93\r\nContent-Type: application/problem+json\r\n\r\n{\"detail\":\"there is nothing here\",\"status\":404,\"type\":\"urn:ietf:params:acme:error:malformed\"}";

// A request for the end of an authorization.
const REVOKES: &[u8] =
    b"POST /office/revoke-authz/1 HTTP/1.1\r\nHost: 127.0.0.1\r\nContent-Length: 0\r\n\r\n";

// Whether a desk is asked for it, and this reply is read whole.
fn hears(alloc: Global, reply: &[u8]) -> bool {
    let mut reader = reply;
    let mut sent = Vec::new(alloc);
    let mut read = [0u8; 512];
    match ask(&mut reader, &mut sent, REVOKES, &mut read) {
        Ok(count) => sent.as_slice() == REVOKES && &read[..count] == reply,
        Err(_) => false,
    }
}

// Whether the desk gives this reply.
fn gives<K: Storage + Drop>(alloc: Global, desk: &mut Desk<K>, asked: &[u8], reply: &[u8]) -> bool {
    let mut input = asked;
    let mut output = Vec::new(alloc);
    let served = serve(alloc, &mut input, &mut output, desk);
    is_whole(served) && output.as_slice() == reply
}

// Whether a reader that fails behind these bytes is told, and nothing is written.
fn fails_to_read<K: Storage + Drop>(alloc: Global, desk: &mut Desk<K>, bytes: &[u8]) -> bool {
    let mut reader = FailingReader { bytes };
    let mut output = Vec::new(alloc);
    let served = serve(alloc, &mut reader, &mut output, desk);
    served == Err(IoFault::Read) && output.len() == 0
}

// Whether this is so behind each beginning of a request.
fn fails_to_read_all<K: Storage + Drop>(alloc: Global, desk: &mut Desk<K>) -> bool {
    for at in 0..POSTED.len() {
        if !fails_to_read(alloc, desk, &POSTED[..at]) {
            return false;
        }
    }
    true
}

// A desk that has nothing yet says so to a request for the end of an authorization.
#[derive(Drop)]
struct NothingRevoked;

impl Trial for NothingRevoked {
    fn passes<A: Abort, K: Storage + Drop>(
        &self,
        _rt: &A,
        alloc: Global,
        desk: &mut Desk<K>,
    ) -> Result<bool, Fail> {
        Ok(gives(alloc, desk, REVOKES, NOTHING_HERE))
    }
}

// A desk gives its first nonce after readers that fail.
#[derive(Drop)]
struct FailedReaders;

impl Trial for FailedReaders {
    fn passes<A: Abort, K: Storage + Drop>(
        &self,
        _rt: &A,
        alloc: Global,
        desk: &mut Desk<K>,
    ) -> Result<bool, Fail> {
        Ok(fails_to_read_all(alloc, desk) && gives(alloc, desk, ASKS_NONCE, FIRST_NONCE))
    }
}

// A writer that fails behind so many bytes is told; the first nonce was issued all the same, so that the next request gives the second.
#[derive(Drop)]
struct FailedWriter {
    room: usize,
}

impl Trial for FailedWriter {
    fn passes<A: Abort, K: Storage + Drop>(
        &self,
        _rt: &A,
        alloc: Global,
        desk: &mut Desk<K>,
    ) -> Result<bool, Fail> {
        let mut input = ASKS_NONCE;
        let mut writer = FailingWriter { room: self.room };
        let served = serve(alloc, &mut input, &mut writer, desk);
        Ok(served == Err(IoFault::Write) && gives(alloc, desk, ASKS_NONCE, SECOND_NONCE))
    }
}

// Whether a fault has this text.
fn has_text(alloc: Global, fault: DeskFault, wanted: &str) -> Result<bool, Fail> {
    let text = fault.to_string(alloc)?;
    Ok(text.as_str() == wanted)
}

#[test]
fn first_nonce_is_given_after_readers_that_fail(rt: HostRuntime) -> Result<(), Fail> {
    assert!(rt; new_desk_passes(&rt, rt.alloc(), &FailedReaders)?);
    Ok(())
}

#[test]
fn what_is_asked_is_answered(rt: HostRuntime) -> Result<(), Fail> {
    assert!(rt; new_desk_passes(&rt, rt.alloc(), &NothingRevoked)?);
    for reply in [NOTHING_HERE, b"HTTP/1.1 200 OK\r\n", b"HTTP/1.1 200", b""] {
        assert!(rt; hears(rt.alloc(), reply));
    }
    Ok(())
}

#[test]
fn a_writer_that_fails_is_told(rt: HostRuntime) -> Result<(), Fail> {
    for room in 0..FIRST_NONCE.len() + 1 {
        assert!(rt; new_desk_passes(&rt, rt.alloc(), &FailedWriter { room })?);
    }
    Ok(())
}

#[test]
fn faults_have_numbers_and_texts(rt: HostRuntime) -> Result<(), Fail> {
    for (fault, wanted) in [
        (DeskFault::Memory, "fault 20 memory"),
        (DeskFault::Device, "fault 21 device"),
        (DeskFault::Reopen, "fault 22 reopen"),
        (DeskFault::NotADesk, "fault 23 not a desk"),
        (DeskFault::Moment, "fault 24 moment"),
        (DeskFault::ShortRandom, "fault 25 short random"),
        (DeskFault::Full, "fault 26 full"),
        (DeskFault::NewerFormat, "fault 27 newer format"),
    ] {
        assert!(rt; has_text(rt.alloc(), fault, wanted)?, "{wanted}");
    }
    Ok(())
}

//! The first nonces of a desk (docs/SPECIFICATION.md, 12): what asks for one, the replies, and the serving that gives them.
use desk::Desk;
use desk_http::{IoFault, Served, serve_request};
use std::alloc::Global;
use std::io::{Read, Write};
use store_api::Storage;

/// Asks for a nonce.
pub const ASKS_NONCE: &[u8] = b"GET /new-nonce HTTP/1.1\r\n\r\n";

/// The first nonce of a desk whose random bytes are all zero.
pub const FIRST_NONCE: &[u8] = b"HTTP/1.1 204 No Content\r\n\
    Connection: close\r\n\
    Cache-Control: no-store\r\n\
    Link: <https://ca.example/directory>;rel=\"index\"\r\n\
    Replay-Nonce: AAAAAAAAAAEAAAAAAAAAAAAAAAAAAAAA\r\n\r\n";

/// The second nonce of such a desk.
pub const SECOND_NONCE: &[u8] = b"HTTP/1.1 204 No Content\r\n\
    Connection: close\r\n\
    Cache-Control: no-store\r\n\
    Link: <https://ca.example/directory>;rel=\"index\"\r\n\
    Replay-Nonce: AAAAAAAAAAIAAAAAAAAAAAAAAAAAAAAA\r\n\r\n";

/// Serves one request at 0, with random bytes that are all zero.
///
/// # Errors
///
/// As of `serve_request`.
pub fn serve<R: Read, W: Write, K: Storage + Drop>(
    alloc: Global,
    reader: &mut R,
    writer: &mut W,
    desk: &mut Desk<K>,
) -> Result<Served, IoFault> {
    serve_request(alloc, reader, writer, desk, 0, &[0u8; 1616])
}

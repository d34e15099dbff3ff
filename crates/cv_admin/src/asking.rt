//! Asks for a page: the request as bytes, and what the response says.
ghost use Rattle.std.specs.Prelude.{◌≡◌, IfSome};
ghost use Rattle.cv_admin.specs.Asking.{request_text, IsPageResponse, IsFramed};

use crate::routes::Page;
use http1::fields::KnownFields;
use http1::framing::{Framing, FramingError, MethodKind, response_framing};
use httparse::Status;
use httparse::spans::{EMPTY_HEADER_SPAN, parse_response};

/// How many header fields a response may have.
const MOST_FIELDS: usize = 64;

/// The response of a server.
#[derive(Clone, Copy, Debug, PartialEq, Eq)]
pub struct PageResponse<'a> {
    /// The HTTP status, such as 200.
    pub status: u16,
    pub text: &'a [u8],
}

/// Returns the HTTP/1.1 request for a page. It asks the server to close the connection after its answer.
pub fn request_for(page: Page) -> &'static [u8]
    ensures { result.now ≡ request_text page }
{
    match page {
        Page::Health => b"GET /health HTTP/1.1\r\nhost: iconvd\r\nconnection: close\r\n\r\n",
        Page::Metrics => b"GET /metrics HTTP/1.1\r\nhost: iconvd\r\nconnection: close\r\n\r\n",
        Page::Streams => b"GET /streams HTTP/1.1\r\nhost: iconvd\r\nconnection: close\r\n\r\n",
        Page::Drain => b"POST /drain HTTP/1.1\r\nhost: iconvd\r\nconnection: close\r\n\r\n",
    }
}

/// Finds the end of a response's text in the bytes that follow the head. `None`: the text was cut off, is chunked, or
/// has no known end.
fn framed(framing: Result<Framing, FramingError>, rest: &[u8]) -> Option<&[u8]>
    ensures { IfSome result (λ text. IsFramed framing rest.now text.now) }
{
    match framing {
        Ok(Framing::NoBody) => Some(&[]),
        Ok(Framing::Length(count)) => match usize::try_from(count) {
            Ok(count) if count <= rest.len() => Some(&rest[..count]),
            _ => None,
        },
        Ok(Framing::UntilClose) => Some(rest),
        Ok(Framing::Chunked) | Err(_) => None,
    }
}

/// Reads a response from all bytes that came before the server closed the connection. `None`: they are not HTTP, were
/// cut off, or are chunked. This server never sends chunks.
pub fn read_response(bytes: &[u8]) -> Option<PageResponse<'_>>
    ensures { IfSome result (λ response. IsPageResponse bytes.now response.status response.text.now) }
{
    let mut fields = [EMPTY_HEADER_SPAN; MOST_FIELDS];
    match parse_response(bytes, &mut fields) {
        Ok(Status::Complete(head)) => {
            let known = KnownFields::from_spans(bytes, &fields[..head.headers]);
            let framing = response_framing(MethodKind::Other, head.code, head.version, &known);
            let text = framed(framing, &bytes[head.len..])?;
            Some(PageResponse {
                status: head.code,
                text,
            })
        }
        _ => None,
    }
}

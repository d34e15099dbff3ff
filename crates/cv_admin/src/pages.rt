//! The pages as an HTTP service.
ghost use Rattle.std.specs.Prelude.{◌≡◌, IsTrue, OnOk};
ghost use Rattle.http.specs.Request.{head_of};
ghost use Rattle.http_header.specs.FieldValue.{is_visible_text};
ghost use Rattle.http_uri.specs.Uri.{uri_path};
ghost use Rattle.http_server.specs.Response.{IsBlank, IsResponse};
ghost use Rattle.cv_admin.specs.Answers.{AnswersRequest, AnswersOn, IsPage, page_fields, NotAllowed};
ghost use Rattle.cv_admin.specs.Answers.{health_status, health_text};

use crate::operated::{Health, Operated};
use crate::routes::{Page, Route, route_of};
use bytes::{BufMut, Bytes};
use http::{HeaderName, HeaderValue, Request, StatusCode};
use http_server::{Response, Service};
use std::alloc::{AllocError, Global};

/// The content type of all answers but the pages `/metrics` and `/streams`.
const PLAIN: &str = "text/plain; charset=utf-8";

/// The content type of Prometheus's text format, in the version that all releases of Prometheus read.
const PROMETHEUS: &str = "text/plain; version=0.0.4; charset=utf-8";

const JSON: &str = "application/json";

/// The pages of a server.
#[derive(Drop)]
pub struct AdminService<'a, O> {
    alloc: Global,
    operated: &'a O,
}

/// Fills a response that closes the connection. `kind` is its content type. It fails if an allocation fails.
fn fill(
    response: &mut Response,
    status: StatusCode,
    kind: &'static str,
    body: &[u8],
) -> Result<(), AllocError>
    requires blank { IsBlank response.old }
    requires kind { IsTrue (is_visible_text kind.now) }
    ensures { OnOk result (IsResponse status (page_fields kind.now) body.now response.new) }
{
    response.status = status;
    let content_type = HeaderName::from_static("content-type");
    response.add_header(content_type, HeaderValue::from_static(kind))?;
    let connection = HeaderName::from_static("connection");
    response.add_header(connection, HeaderValue::from_static("close"))?;
    response.body.put_slice(body)
}

/// The status of the page `/health`: 200 if a place is free, else 503.
fn status_of(health: Health) -> StatusCode
    ensures { result ≡ health_status health }
{
    match health {
        Health::Free => StatusCode::OK,
        Health::Full | Health::Draining => StatusCode::SERVICE_UNAVAILABLE,
    }
}

/// The text of the page `/health`.
fn text_of(health: Health) -> &'static [u8]
    ensures { result.now ≡ health_text health }
{
    match health {
        Health::Free => b"ok\n",
        Health::Full => b"full\n",
        Health::Draining => b"draining\n",
    }
}

/// AnswersRequest 405 (method not allowed), with the methods that the page takes.
fn refuse_method(response: &mut Response, page: Page) -> Result<(), AllocError>
    requires { IsBlank response.old }
    ensures { OnOk result (NotAllowed page response.new) }
{
    let status = StatusCode::METHOD_NOT_ALLOWED;
    fill(response, status, PLAIN, b"method not allowed\n")?;
    let methods = match page {
        Page::Health | Page::Metrics | Page::Streams => HeaderValue::from_static("GET, HEAD"),
        Page::Drain => HeaderValue::from_static("POST"),
    };
    response.add_header(HeaderName::from_static("allow"), methods)
}

impl<'a, O: Operated> AdminService<'a, O> {
    /// Makes the pages of this server.
    pub fn new(alloc: Global, operated: &'a O) -> AdminService<'a, O> {
        AdminService { alloc, operated }
    }

    /// AnswersRequest with a page. `Drain` begins a drain.
    fn show(&self, page: Page, response: &mut Response) -> Result<(), AllocError>
        requires { IsBlank response.old }
        ensures { OnOk result (IsPage page response.new) }
    {
        match page {
            Page::Health => {
                let health = self.operated.health();
                fill(response, status_of(health), PLAIN, text_of(health))
            }
            Page::Metrics => {
                let text = self.operated.metrics(self.alloc)?;
                fill(response, StatusCode::OK, PROMETHEUS, text.as_bytes())
            }
            Page::Streams => {
                let text = self.operated.streams(self.alloc)?;
                fill(response, StatusCode::OK, JSON, text.as_bytes())
            }
            Page::Drain => {
                self.operated.drain();
                fill(response, StatusCode::ACCEPTED, PLAIN, b"draining\n")
            }
        }
    }

    /// AnswersRequest a request by its route.
    fn answer(&self, route: Route, response: &mut Response) -> Result<(), AllocError>
        requires { IsBlank response.old }
        ensures { OnOk result (AnswersOn route response.new) }
    {
        match route {
            Route::To(page) => self.show(page, response),
            Route::NotAllowed(page) => refuse_method(response, page),
            Route::Nowhere => fill(response, StatusCode::NOT_FOUND, PLAIN, b"not found\n"),
        }
    }
}

impl<O: Operated> Service for AdminService<'_, O> {
    ghost answers = { λ old request response new.
        AnswersRequest (head_of request).method (uri_path (head_of request).uri) response × (new ≡ old) };

    fn call(
        &mut self,
        request: &Request<Bytes>,
        response: &mut Response,
    ) -> Result<(), AllocError> {
        let method = request.method().as_str().as_bytes();
        let route = route_of(method, request.uri().path().as_bytes());
        self.answer(route, response)
    }
}

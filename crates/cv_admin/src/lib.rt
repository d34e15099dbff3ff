//! The pages for operators, by HTTP/1.1: health, metrics, streams and drain.
#![tactic(auto)]

mod asking;
mod operated;
mod pages;
mod routes;
mod serving;
#[cfg(test)]
mod tests;

pub use asking::{PageResponse, read_response, request_for};
pub use operated::{Health, Operated};
pub use pages::AdminService;
pub use routes::{Page, Route, route_of};
pub use serving::{MOST_REQUEST_BODY, serve_client};

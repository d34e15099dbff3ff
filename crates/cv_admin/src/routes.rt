//! Which page a request asks for.
ghost use Rattle.std.specs.Prelude.{◌≡◌, bytes_eq};
ghost use Rattle.cv_admin.specs.Routes as spec;

/// A page.
#[derive(Clone, Copy, Debug, PartialEq, Eq)]
pub enum Page {
    Health,
    Metrics,
    Streams,
    Drain,
}

/// What a request asks for.
#[derive(Clone, Copy, Debug, PartialEq, Eq)]
pub enum Route {
    /// A page, asked for by a method that it takes.
    To(Page),
    /// A page, asked for by another method.
    NotAllowed(Page),
    /// No page has this path.
    Nowhere,
}

/// Whether two texts are equal.
fn is(text: &[u8], other: &[u8]) -> bool
    ensures { result ≡ bytes_eq text.now other.now }
{
    text == other
}

/// The page at a path.
fn page_at(path: &[u8]) -> Option<Page>
    ensures { result ≡ spec.page_at path.now }
{
    if is(path, b"/health") {
        Some(Page::Health)
    } else if is(path, b"/metrics") {
        Some(Page::Metrics)
    } else if is(path, b"/streams") {
        Some(Page::Streams)
    } else if is(path, b"/drain") {
        Some(Page::Drain)
    } else {
        None
    }
}

/// Whether a page takes a method. Pages that only show something take GET and HEAD; `Drain` takes POST.
fn takes(page: Page, method: &[u8]) -> bool
    ensures { result ≡ spec.takes page method.now }
{
    match page {
        Page::Health | Page::Metrics | Page::Streams => is(method, b"GET") || is(method, b"HEAD"),
        Page::Drain => is(method, b"POST"),
    }
}

/// Returns what a request with this method and this path asks for.
pub fn route_of(method: &[u8], path: &[u8]) -> Route
    ensures { result ≡ spec.route_of method.now path.now }
{
    match page_at(path) {
        Some(page) => {
            if takes(page, method) {
                Route::To(page)
            } else {
                Route::NotAllowed(page)
            }
        }
        None => Route::Nowhere,
    }
}

//! The ends of the commands' help texts.

/// What the help of the commands that take a script ends with.
pub(crate) const SCRIPTS: &str = "\
A script has one request a line, CALLER TAG and then one of
  put TEXT                     upload a charmap; | stands for a line feed
  put @FILE                    upload the charmap in FILE
  part TEXT                    hold TEXT in front of the next put
  drop NAME                    give back a charmap
  open TARGET SOURCE [strict]
  conv DESCRIPTOR ROOM HEX
  reset DESCRIPTOR ROOM
  close DESCRIPTOR
  bye                          give back all that the caller has
  raw OP HEX

Example:
  $ printf '7 1 open UTF-8 ISO-8859-1\\n7 2 conv 0 8 41e942\\n' | iconvd run
  7 1 OK 00000000
  7 2 OK 000000000000000041c3a942

See iconvd(1) and iconvd-protocol(5).";

/// What the help of `pipe` and `show` ends with.
pub(crate) const FRAMES: &str = "\
`iconvd ask < SCRIPT | iconvd pipe | iconvd show` prints what `iconvd run < SCRIPT` prints.

See iconvd(1) and iconvd-protocol(5).";

/// What the help of `listen` ends with.
pub(crate) const LISTENING: &str = "\
ADDR is HOST:PORT for TCP, unix:PATH for a Unix socket, or fd:N for a listener that the process was \
given as descriptor N. `listen`
prints `listening ADDR` once clients can connect. At port 0 the system chooses the port, which the line then shows.

TCP has no encryption and no authentication: anybody who can connect is served. Use a Unix socket \
to serve local users only; the umask
decides who may connect to it. The socket file of a server that has died is replaced.

With --admin ADDR, which is HOST:PORT or unix:PATH, `listen` also prints `admin ADDR`. GET /health, \
/metrics and /streams there, or
POST /drain; `iconvd admin` does so too. Any client that can connect there can end the server.

Example:
  $ iconvd listen 127.0.0.1:7879 --at-once 64 --idle 300 &
  listening 127.0.0.1:7879
  $ printf '7 1 open UTF-8 ISO-8859-1\\n7 2 conv 0 8 41e942\\n' | iconvd call 127.0.0.1:7879
  7 1 OK 00000000
  7 2 OK 000000000000000041c3a942

See iconvd(1) and iconvd-protocol(5).";

/// What the help of `call` ends with.
pub(crate) const CALLING: &str = "\
ADDR is HOST:PORT for TCP, or unix:PATH for a Unix socket. If the server fails, the lines of the \
replies before are still printed, and
the exit status is 1.

Example:
  $ iconvd listen 127.0.0.1:7879 &
  listening 127.0.0.1:7879
  $ printf '7 1 open UTF-8 ISO-8859-1\\n7 2 conv 0 8 41e942\\n' | iconvd call 127.0.0.1:7879
  7 1 OK 00000000
  7 2 OK 000000000000000041c3a942

See iconvd(1) and iconvd-protocol(5).";

/// What the help of `admin` ends with.
pub(crate) const ADMINISTERING: &str = "\
ADDR is what `listen` was given with --admin: HOST:PORT for TCP, or unix:PATH for a Unix socket. PAGE is one of
  health     ok; full, while all places are taken; draining
  metrics    counts and times, in Prometheus's text format
  streams    a JSON array with an object for each stream
  drain      serve no new stream, and end after those that are there

The exit status is 0 for health ok and whenever a page is printed as asked for, and 1 for health \
full or draining and for any fault.

Example:
  $ iconvd listen 127.0.0.1:7879 --admin 127.0.0.1:7880 --at-once 64 &
  listening 127.0.0.1:7879
  admin 127.0.0.1:7880
  $ iconvd admin 127.0.0.1:7880 health
  ok

See iconvd(1).";

/// What the help of `checkmap` ends with.
pub(crate) const CHARMAPS: &str = "\
FILE is a charmap file (POSIX, XBD 6.4), or - for standard input. `checkmap` prints the name of the \
code set and the number of
mappings. For an invalid file it prints the first error as `line N: CAUSE`, and the exit status is 1.

Example:
  $ gzip -dc /usr/share/i18n/charmaps/KOI8-U.gz | iconvd checkmap -
  KOI8-U 256

See iconvd(1) and iconvd-protocol(5).";

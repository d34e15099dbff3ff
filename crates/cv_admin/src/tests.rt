mod answers;
mod requests;
mod server;

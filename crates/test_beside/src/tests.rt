mod cells;
mod handshakes;
mod runs;

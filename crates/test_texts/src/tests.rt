mod par;
mod trace;

// Certificates: what is read is written again, heads that no text has, and other blocks in the place of theirs.
mod copied;
mod copies;
mod heads;
mod others;
mod texts;
mod told;

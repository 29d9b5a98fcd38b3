//! Turns over a plain counter and over a diary.

mod count;
mod diary;
mod send;

//! Tests of images, through the top call.
//!
//! Images are stored, run, migrated, told as texts and made of these, and come from any hand:
//! changed, cut, deep and wide (`hostile`).
#![tactic(auto)]

#[cfg(test)]
mod hostile;
#[cfg(test)]
mod image_texts;
#[cfg(test)]
mod images;

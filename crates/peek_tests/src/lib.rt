//! Tests of what looks into a snapshot file and of what restores one page by page, over files that are made by hand. They
//! stand on `page_peek`, `lazy_restore` and the files in memory.
#![tactic(auto)]

#[cfg(test)]
mod files;
#[cfg(test)]
mod peeks;
#[cfg(test)]
mod restores;

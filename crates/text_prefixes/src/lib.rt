//! Prefixes of bytes that begin a text of a language, for any language: how far bytes fit it. The crate has definitions
//! alone, and a lemma in proofs/: at most one prefix is the longest. Each crate above states it of its own language.
#![tactic(auto)]

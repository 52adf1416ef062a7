//! Rights, requests and chains: what holds of them in every state of the machine, with lock passing, callbacks and
//! failures in the middle of a chain.
//!
//! `specs/World` sees a state of the machine without its values: which handler has each right and which gets it
//! back, which handler waits for which, and where each request is. `specs/Steps` has the steps that a turn is made
//! of. What each step keeps is in `specs/Consistent`, `specs/Provided`, `specs/Served` and `specs/Returns`, and what
//! follows from it in `specs/Laws`, carried by [`steps`]. `specs/Stands` says which state of the machine a world
//! represents, and `specs/Headline` and `specs/Formals` what follows of that state, carried by [`laws`].
//!
//! And values: what fits where in a state of the machine (`specs/Fitting`), and what follows of it, carried by
//! [`value_laws`].

pub mod laws;
pub mod steps;
pub mod value_laws;

//! The greatest numbers that options take are those of the libraries.

use bench_shared::MAX_LOADERS;
use bench_workers::MAX_WORKERS;
use command_words::options::{LOADERS, SWEEPERS, WORKERS};
use key_sweep::MAX_SWEEPERS;

const _: () = prove!(LOADERS.most == MAX_LOADERS);

const _: () = prove!(WORKERS.most == MAX_WORKERS);

const _: () = prove!(SWEEPERS.most == MAX_SWEEPERS);

//! Statements on many workers. No contract states that an account gets its row if there is enough memory.
use sample_files::three_commodities::{PARAMS, POSITIONS, STATEMENT};
use statement::margin::margin;
use worker_pool::batch::MAX_WORKERS;
use worker_pool::gates::OpenGate;

// Sixteen workers share the steps of one account, and each run prints the same bytes.
#[test]
fn a_hundred_statements_on_sixteen_workers(rt: HostRuntime) {
    for _ in 0..100 {
        let text = margin(&rt, rt.alloc(), PARAMS, POSITIONS, MAX_WORKERS, &OpenGate);
        assert_eq!(rt; text.expect(&rt, "a statement").as_slice(), STATEMENT);
    }
}

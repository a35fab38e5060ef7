//! The tests.

mod of_go_bench_text;
mod of_json_text;
mod of_lnt_report;
mod of_report_pages;
mod tree_text;

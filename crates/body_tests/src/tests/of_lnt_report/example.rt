//! A submission of the shape that `lnt runtest` writes, and its samples: copies of the files
//! `examples/lnt-run.json` and `examples/lnt-run.samples`.

pub(super) const SUBMISSION: &str = r#"{
  "format_version": "2",
  "machine": {
    "name": "linux-x86_64-ryzen",
    "hardware": "AMD Ryzen 9 5950X 16-Core Processor",
    "os": "Linux 6.1.0-18-amd64",
    "uname": "Linux ci-07 6.1.0-18-amd64 #1 SMP PREEMPT_DYNAMIC Debian 6.1.76-1 (2024-02-01) x86_64",
    "cpu_MHz": "3400.000"
  },
  "run": {
    "start_time": "2024-03-14T02:11:47",
    "end_time": "2024-03-14T03:02:20",
    "llvm_project_revision": "3b16d8c872a8",
    "cc_target": "x86_64-unknown-linux-gnu",
    "cc_version": "clang version 19.0.0git (\u00a7 release+asserts)",
    "inferred_run_order": "494214",
    "run_order": null,
    "test_suite_git_sha": "0a1e2b6f",
    "ARGV": ["--cmake-define", "TEST_SUITE_RUN_BENCHMARKS=On", "-j32"],
    "profile": {"enabled": false, "events": []}
  },
  "tests": [
    {
      "name": "SingleSource/Benchmarks/Shootout/fib2",
      "compile_time": [0.9850, 0.4695, 1.9598],
      "hash": "1818e811892f902bd23f0824128b2f33",
      "execution_time": 3.9255e-05,
      "execution_status": 0,
      "score": null
    },
    {
      "name": "SingleSource/Benchmarks/Shootout/nestedloop",
      "compile_time": [0.1928, 1.5322, 0.1317],
      "hash": "3d9c172411e20b8f6b0d549b6f03675a",
      "execution_time": [0.8165, 3.8207, 7.4417],
      "execution_status": 0,
      "code_size": 133815
    },
    {
      "name": "SingleSource/Benchmarks/Stanford/Queens",
      "compile_time": [2.8434, 1.8993, 1.7573],
      "hash": "658cda1495e60af593bd04cf0fd630f1",
      "execution_time": [0.4464, 1.9898, 5.0100],
      "execution_status": 0,
      "score": null
    },
    {
      "name": "SingleSource/Benchmarks/Polybench/linear-algebra/kernels/gemm/gemm",
      "compile_time": [0.4169, 1.2690, 1.6312],
      "hash": "d0eda82f8f6d05584ef8aa3892276658",
      "execution_time": 6.4560e-05,
      "execution_status": 0,
      "code_size": 112061,
      "mem_bytes": [],
      "score": -12.00005
    },
    {
      "name": "MultiSource/Benchmarks/Olden/bh/bh",
      "compile_time": [1.7532, 1.9240, 1.1297],
      "hash": "907a70c31012f037b64ce4228c38fb29",
      "execution_time": [0.5365, 1.8537, 6.1236],
      "execution_status": 0,
      "score": null
    },
    {
      "name": "MultiSource/Applications/sqlite3/sqlite3",
      "compile_time": [1.2942, 0.9562, 1.7650],
      "hash": "3f98e2774cbd87ad5c90a9587403e430",
      "execution_time": [7.1494, 6.2910, 2.1969],
      "execution_status": 0,
      "code_size": 606326,
      "link_time": 1.5E+1
    },
    {
      "name": "MicroBenchmarks/LoopVectorization/LoopVectorizationBenchmarks.test:benchForTruncOrZextVecInLoopWithVW8From_uint16_t_To_uint8_t_",
      "compile_time": [0.9147, 1.4954, 1.0436],
      "hash": "faecbd389be4bcfc49b64a0872e6cc3a",
      "execution_time": 1.5856e-05,
      "execution_status": 0,
      "score": null
    },
    {
      "name": "External/SPEC/CINT2017rate/502.gcc_r/502.gcc_r",
      "compile_time": [1.5456, 0.5116, 1.0393],
      "hash": "0a097c976bf46c697d2caf82eeeacbe2",
      "execution_time": [8.6582, 0.6987, 5.0227],
      "execution_status": 0,
      "code_size": 831425
    }
  ]
}
"#;

pub(super) const SAMPLES: &str =
    "machine linux-x86_64-ryzen\ncommit 3b16d8c872a8\nignored 12\nSingleSource/Benchmarks/Shootout/fib2 compile_time 985000000\nSingleSource/Benchmarks/Shootout/fib2 compile_time 469500000\nSingleSource/Benchmarks/Shootout/fib2 compile_time 1959800000\nSingleSource/Benchmarks/Shootout/fib2 execution_time 39255\nSingleSource/Benchmarks/Shootout/fib2 execution_status 0\nSingleSource/Benchmarks/Shootout/nestedloop compile_time 192800000\nSingleSource/Benchmarks/Shootout/nestedloop compile_time 1532200000\nSingleSource/Benchmarks/Shootout/nestedloop compile_time 131700000\nSingleSource/Benchmarks/Shootout/nestedloop execution_time 816500000\nSingleSource/Benchmarks/Shootout/nestedloop execution_time 3820700000\nSingleSource/Benchmarks/Shootout/nestedloop execution_time 7441700000\nSingleSource/Benchmarks/Shootout/nestedloop execution_status 0\nSingleSource/Benchmarks/Shootout/nestedloop code_size 133815\nSingleSource/Benchmarks/Stanford/Queens compile_time 2843400000\nSingleSource/Benchmarks/Stanford/Queens compile_time 1899300000\nSingleSource/Benchmarks/Stanford/Queens compile_time 1757300000\nSingleSource/Benchmarks/Stanford/Queens execution_time 446400000\nSingleSource/Benchmarks/Stanford/Queens execution_time 1989800000\nSingleSource/Benchmarks/Stanford/Queens execution_time 5010000000\nSingleSource/Benchmarks/Stanford/Queens execution_status 0\nSingleSource/Benchmarks/Polybench/linear-algebra/kernels/gemm/gemm compile_time 416900000\nSingleSource/Benchmarks/Polybench/linear-algebra/kernels/gemm/gemm compile_time 1269000000\nSingleSource/Benchmarks/Polybench/linear-algebra/kernels/gemm/gemm compile_time 1631200000\nSingleSource/Benchmarks/Polybench/linear-algebra/kernels/gemm/gemm execution_time 64560\nSingleSource/Benchmarks/Polybench/linear-algebra/kernels/gemm/gemm execution_status 0\nSingleSource/Benchmarks/Polybench/linear-algebra/kernels/gemm/gemm code_size 112061\nSingleSource/Benchmarks/Polybench/linear-algebra/kernels/gemm/gemm score -120001\nMultiSource/Benchmarks/Olden/bh/bh compile_time 1753200000\nMultiSource/Benchmarks/Olden/bh/bh compile_time 1924000000\nMultiSource/Benchmarks/Olden/bh/bh compile_time 1129700000\nMultiSource/Benchmarks/Olden/bh/bh execution_time 536500000\nMultiSource/Benchmarks/Olden/bh/bh execution_time 1853700000\nMultiSource/Benchmarks/Olden/bh/bh execution_time 6123600000\nMultiSource/Benchmarks/Olden/bh/bh execution_status 0\nMultiSource/Applications/sqlite3/sqlite3 compile_time 1294200000\nMultiSource/Applications/sqlite3/sqlite3 compile_time 956200000\nMultiSource/Applications/sqlite3/sqlite3 compile_time 1765000000\nMultiSource/Applications/sqlite3/sqlite3 execution_time 7149400000\nMultiSource/Applications/sqlite3/sqlite3 execution_time 6291000000\nMultiSource/Applications/sqlite3/sqlite3 execution_time 2196900000\nMultiSource/Applications/sqlite3/sqlite3 execution_status 0\nMultiSource/Applications/sqlite3/sqlite3 code_size 606326\nMultiSource/Applications/sqlite3/sqlite3 link_time 150000\nMicroBenchmarks/LoopVectorization/LoopVectorizationBenchmarks.test:benchForTruncOrZextVecInLoopWithVW8From_uint16_t_To_uint8_t_ compile_time 914700000\nMicroBenchmarks/LoopVectorization/LoopVectorizationBenchmarks.test:benchForTruncOrZextVecInLoopWithVW8From_uint16_t_To_uint8_t_ compile_time 1495400000\nMicroBenchmarks/LoopVectorization/LoopVectorizationBenchmarks.test:benchForTruncOrZextVecInLoopWithVW8From_uint16_t_To_uint8_t_ compile_time 1043600000\nMicroBenchmarks/LoopVectorization/LoopVectorizationBenchmarks.test:benchForTruncOrZextVecInLoopWithVW8From_uint16_t_To_uint8_t_ execution_time 15856\nMicroBenchmarks/LoopVectorization/LoopVectorizationBenchmarks.test:benchForTruncOrZextVecInLoopWithVW8From_uint16_t_To_uint8_t_ execution_status 0\nExternal/SPEC/CINT2017rate/502.gcc_r/502.gcc_r compile_time 1545600000\nExternal/SPEC/CINT2017rate/502.gcc_r/502.gcc_r compile_time 511600000\nExternal/SPEC/CINT2017rate/502.gcc_r/502.gcc_r compile_time 1039300000\nExternal/SPEC/CINT2017rate/502.gcc_r/502.gcc_r execution_time 8658200000\nExternal/SPEC/CINT2017rate/502.gcc_r/502.gcc_r execution_time 698700000\nExternal/SPEC/CINT2017rate/502.gcc_r/502.gcc_r execution_time 5022700000\nExternal/SPEC/CINT2017rate/502.gcc_r/502.gcc_r execution_status 0\nExternal/SPEC/CINT2017rate/502.gcc_r/502.gcc_r code_size 831425\n";

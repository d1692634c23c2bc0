//! What the limits are.
ghost use Rattle.std.specs.Prelude.{◌≡◌};
ghost use Rattle.scr_io.specs.declared.memory.TheConstants.{RESERVE};
ghost use Rattle.scr_io.specs.declared.reading.TheConstants.{MAX_BYTES};

/// A file has at most 64 MiB, and a sink in memory has room for 16.
pub fn limits()
    ensures most { MAX_BYTES ≡ 67_108_864 }
    ensures room { RESERVE ≡ 16_777_216 }
{}

// Which marks a table keeps and which signals can ring, for C, in libtable_kept.a: a table is a pointer and a length. Each calls
// the library's function of its name. The header is include/table_kept.h.
#![tactic(auto)]

ghost use Rattle.std.specs.Prelude.{◌≡◌};
ghost use Rattle.table_kept.specs.Answers.{kept_answer_of, rung_of};

use table_kept::kept::Kept;
use table_kept::rung::Rung;

// typedef struct { uint8_t refusal, kept, rings, len, marks[32]; } alert_kept;
// alert_kept alert_signal_table_keeps(const uint8_t *table, size_t table_len, uint32_t available, uint8_t node);
#[unsafe(no_mangle)]
pub extern "C" fn alert_signal_table_keeps(table: &[u8], available: u32, node: u8) -> Kept
    ensures { result ≡ kept_answer_of table.now available node }
{
    table_kept::alert_signal_table_keeps(table, available, node)
}

// typedef struct { uint8_t refusal, rings, len, marks[32]; } alert_rung;
// alert_rung alert_signal_table_rings(const uint8_t *table, size_t table_len, uint32_t available, uint8_t signal);
#[unsafe(no_mangle)]
pub extern "C" fn alert_signal_table_rings(table: &[u8], available: u32, signal: u8) -> Rung
    ensures { result ≡ rung_of table.now available signal }
{
    table_kept::alert_signal_table_rings(table, available, signal)
}

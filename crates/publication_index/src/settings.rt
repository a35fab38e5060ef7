//! The settings of metrics.
ghost use Rattle.std.specs.Prelude.{◌≡◌, ℕ, List, [], bytes_eq, if◌then◌else◌, OnOk, OnErr};
ghost use Rattle.publication_index.specs.Given.{given};

use crate::NoMemory;
use history_model::Setting;
use line_text::Name;
use metric_table::default_penalty;
use name_index::OrderedMap;
use std::alloc::Global;
use std::marker::Model;

/// The setting of each metric: the last one that was set, else the penalty of the table and length 1.
#[derive(Drop)]
pub struct SettingIndex(OrderedMap<Name, Setting>);

impl Model for SettingIndex {
    ghost use Rattle.std.specs.Prelude.{ℕ, List};
    ghost use Rattle.history_model.specs.declared.setting.Setting.{Setting as ASetting};

    ghost Value = { List (List ℕ × ASetting) };

    ghost view = { λ p. p.0 };
}

impl SettingIndex {
    /// No setting was set. The value keeps its allocator.
    pub fn new(alloc: Global) -> SettingIndex
        ensures { result ≡ [] }
    {
        SettingIndex(OrderedMap::new(alloc))
    }

    /// The metric's setting. Logarithmic time; takes no memory.
    pub fn get(&self, metric: &Name) -> Setting
        ensures { result ≡ given metric.now self.now }
    {
        match self.0.get(metric) {
            Some(setting) => *setting,
            None => Setting {
                penalty: default_penalty(metric.as_str().as_bytes()),
                length: 1,
            },
        }
    }

    /// Sets the metric's setting; changes nothing that is given where there is no memory. Logarithmic time.
    pub fn set(&mut self, metric: &Name, setting: Setting) -> Result<(), NoMemory>
        ensures ok { OnOk result ((m : List ℕ) → given m self.new
            ≡ (if bytes_eq metric.now m then setting else given m self.old)) }
        ensures err { OnErr result ((m : List ℕ) → given m self.new ≡ given m self.old) }
    {
        self.0.put(metric, setting)?;
        Ok(())
    }
}

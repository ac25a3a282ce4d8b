// The log of a host's wire.

ghost use Rattle.std.specs.Prelude.{◌≡◌, ◌≤◌, [], length};
ghost use Rattle.stations.specs.Stations.{backlog_at};
ghost use Rattle.stations.specs.WireLogs.{last_of_others};

use crate::Lan;
use descriptors::Frame;
use stations::LOG_ENTRIES;

impl Lan {
    /// Returns the log of a host's wire: frames that hosts put on the wire, in order, each with the number of its
    /// sender. The log has at most 1,024 entries. If the log is full when a host puts a frame, entries that all ends
    /// except their senders' have read are dropped. If there is no such host, the result is empty.
    ///
    /// - `waits`: the frames that wait at the host's end are the last entries of other senders in the log.
    pub fn log(&self, host: usize) -> &[(usize, Frame)]
        ensures waits { backlog_at self.now.stations host
            ≡ last_of_others host (length (backlog_at self.now.stations host)) result.now }
        ensures most { length result.now ≤ LOG_ENTRIES }
        ensures absent { length self.now.hosts ≤ host → result.now ≡ [] }
    {
        if host >= self.network.len() {
            return &[];
        }
        self.network.stations().log(host)
    }
}
